//! A counter of the identifiers and end-of-contents that scans read, for proofs about the cost of a
//! scan.
use std::marker::Model;
use std::sync::ledger::{Blank, Book, Ledger, Share};

/// The number of turns that scans (see
/// [`decode_indefinite_length`](crate::decode_indefinite_length)) have made. A turn reads one
/// identifier or one end-of-contents (two zero octets). The counter exists only in contracts, so it
/// needs no memory. Only a scan increments it.
#[derive(Drop)]
pub struct Turns<L: Ledger> {
    book: Book<L>,
    share: Share<L>,
}

impl<L: Ledger> Model for Turns<L> {
    ghost use Rattle.std.specs.Prelude.{ℕ, ◌<◌};

    ghost Value = { ℕ };

    ghost view = { λ t. t.book.total };

    ghost invariant = { λ t. 0 < t.share.parts };
}

impl<L: Ledger> Turns<L> {
    ghost use Rattle.std.specs.Prelude.{◌≡◌, ◌+◌};

    /// A counter at zero, kept in the ledger `L` (see `std::sync::ledger`) that `blank` opens.
    ///
    /// The caller must ensure that `blank` is not shared, and that its name is the name of the
    /// ledger `L`.
    pub fn new(blank: Blank) -> Self
        requires name { blank.name ≡ L.name }
        requires parts { blank.parts ≡ L.parts }
        requires whole { blank.parts ≡ 1 }
        ensures { result ≡ 0 }
    {
        let (book, share) = blank.open();
        Turns { book, share }
    }

    // Counts a turn.
    pub(crate) fn tick(&mut self)
        ensures { self.new ≡ self.old + 1 }
    {
        self.book.add(&mut self.share, 1);
    }
}
