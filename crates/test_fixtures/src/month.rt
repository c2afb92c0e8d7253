//! What the contracts of the encoding functions state for a type with one contents octet.
ghost use Rattle.std.specs.Prelude.{◌≡◌, [], ◌∷◌, ◌++◌, IfOk, OnErr, OnOk};
ghost use Rattle.der.specs.Prelude.{definite_length};

use der::example::MyByteMonth;
use der::{Encode, Error, Length};
use std::alloc::Global;

/// Returns the encoding of a month: the octets `04 01` and the octet of its number. The contract of
/// this function follows from the contract that `to_der` has for every type.
pub fn month_der(alloc: Global, month: &MyByteMonth) -> Result<Vec<u8>, Error>
    ensures { IfOk result (λ v. v.items ≡ 4 ∷ 1 ∷ month.now.number ∷ []) }
{
    month.to_der(alloc)
}

/// Appends the encoding of `month` to `out`, and returns the number of octets of the encoding. A
/// call that fails leaves `out` unchanged.
pub fn append_month(out: &mut Vec<u8>, month: &MyByteMonth) -> Result<Length, Error>
    ensures count { IfOk result (λ n. n ≡ definite_length 3) }
    ensures ok { OnOk result (out.new.items ≡ out.old.items ++ (4 ∷ 1 ∷ month.now.number ∷ [])) }
    ensures refused { OnErr result (out.new.items ≡ out.old.items) }
{
    month.encode_to_vec(out)
}
