//! Stores elements and departures while a value is read.
ghost use Rattle.std.specs.Prelude.{◌≡◌, ◌↔◌, ◌+◌, ◌++◌, ◌∷◌, ◌<◌, ◌≤◌, true, [], length, IfOk, OnOk};
ghost use Rattle.der_base.specs.declared.encoding_rules.EncodingRules.{EncodingRules};
ghost use Rattle.schema_read.specs.Verdict.{holds};
ghost use Rattle.schema_read.specs.declared.verdict.Verdict.TheVariants.{Der};
ghost use Rattle.schema_read.specs.Enclosed.{IsAllowed};
ghost use Rattle.schema_read.specs.Notes.{departures_of};
ghost use Rattle.schema_read.specs.Reading.{Logs};
ghost use Rattle.schema_read.specs.Rule.{verdict_of_rule, verdict_of_option};

use crate::departure::Departure;
use crate::entry::Entry;
use crate::full::Full;
use crate::notes::Notes;
use crate::opened::Opened;
use crate::rule::Rule;
use crate::verdict::Verdict;
use ber::Header;

impl<'n> Notes<'n> {
    /// Makes an empty list of elements and an empty list of departures, which are stored in memory
    /// of the caller. `end` is the number of octets of the input.
    pub fn new(
        entries: &'n mut [Entry],
        departures: &'n mut [Departure],
        kept: bool,
        end: usize,
    ) -> Self
        ensures none { departures_of result ≡ [] }
        ensures lost { result.lost ≡ 0 }
        ensures kept { result.kept ≡ kept }
        ensures end { result.end ≡ end }
        ensures entries { result.entries.ghost_name ≡ entries.entry.ghost_name }
        ensures departures { result.departures.ghost_name ≡ departures.entry.ghost_name }
    {
        Notes {
            entries,
            departures,
            entry_count: 0,
            departure_count: 0,
            lost: 0,
            kept,
            end,
        }
    }

    /// Stores a departure, and returns the verdict of its rule. If there is no room for the
    /// departure, it is only counted.
    pub fn depart(&mut self, rule: Rule, offset: usize, node: usize) -> Result<Verdict, Full>
        requires { offset ≤ self.old.end }
        ensures verdict { IfOk result (λ v. v ≡ verdict_of_rule rule) }
        ensures log { IfOk result (λ v. Logs v self.old self.new) }
        ensures end { OnOk result (self.new.end ≡ self.old.end) }
    {
        if self.kept {
            self.add(Departure { rule, offset, node });
        }
        Ok(rule.verdict())
    }

    // Adds a departure, or counts it if there is no room.
    fn add(&mut self, departure: Departure)
        requires { departure.offset ≤ self.old.end }
        ensures added { self.new.lost ≡ 0 → (self.old.lost ≡ 0)
            × (departures_of self.new ≡ departures_of self.old ++ departure ∷ []) }
        ensures kept { self.new.kept ≡ self.old.kept }
        ensures end { self.new.end ≡ self.old.end }
        ensures entries { self.new.entries.ghost_name ≡ self.old.entries.ghost_name }
        ensures departures { self.new.departures.ghost_name ≡ self.old.departures.ghost_name }
    {
        if self.departure_count < self.departures.len() {
            self.keep(departure);
        } else {
            self.lost = self.lost.saturating_add(1);
        }
    }

    // Adds a departure.
    fn keep(&mut self, departure: Departure)
        requires inside { departure.offset ≤ self.old.end }
        requires room { self.old.departure_count < length self.old.departures.now }
        ensures added { departures_of self.new ≡ departures_of self.old ++ departure ∷ [] }
        ensures lost { self.new.lost ≡ self.old.lost }
        ensures kept { self.new.kept ≡ self.old.kept }
        ensures end { self.new.end ≡ self.old.end }
        ensures entries { self.new.entries.ghost_name ≡ self.old.entries.ghost_name }
        ensures departures { self.new.departures.ghost_name ≡ self.old.departures.ghost_name }
    {
        self.departures[self.departure_count] = departure;
        self.departure_count += 1;
    }

    /// Stores a departure if `rule` is `Some`, which means that this rule is broken. Returns the
    /// verdict of the rule; [`Verdict::Der`] if `rule` is `None`.
    pub fn judge(&mut self, rule: Option<Rule>, offset: usize, node: usize) -> Result<Verdict, Full>
        requires { offset ≤ self.old.end }
        ensures verdict { IfOk result (λ v. v ≡ verdict_of_option rule) }
        ensures log { IfOk result (λ v. Logs v self.old self.new) }
        ensures end { OnOk result (self.new.end ≡ self.old.end) }
    {
        match rule {
            Some(rule) => self.depart(rule, offset, node),
            None => Ok(Verdict::Der),
        }
    }

    /// Stores a departure if the length of a header is indefinite, or is not in the fewest octets.
    /// DER forbids both.
    pub fn judge_lengths(
        &mut self,
        header: Header,
        offset: usize,
        node: usize,
    ) -> Result<Verdict, Full>
        requires { offset ≤ self.old.end }
        ensures verdict { IfOk result (λ v. (rules : EncodingRules)
            → (holds rules v ≡ true) ↔ IsAllowed rules header) }
        ensures log { IfOk result (λ v. Logs v self.old self.new) }
        ensures end { OnOk result (self.new.end ≡ self.old.end) }
    {
        if header.is_indefinite() {
            return self.depart(Rule::IndefiniteLength, offset, node);
        }
        if !header.minimal {
            return self.depart(Rule::LongLength, offset, node);
        }
        Ok(Verdict::Der)
    }

    /// Stores an element, and returns its index. Fails if there is no room for the element. If
    /// elements are not kept, nothing is stored, and the result is 0.
    pub fn enter(&mut self, entry: Entry) -> Result<usize, Full>
        requires { entry.offset + entry.header_len + entry.contents_len ≤ self.old.end }
        ensures log { OnOk result (Logs Der self.old self.new) }
        ensures end { OnOk result (self.new.end ≡ self.old.end) }
    {
        let index = self.entry_count;
        if self.kept {
            let depth = self.depth_inside(entry.parent);
            self.place(Entry { depth, ..entry })?;
        }
        Ok(index)
    }

    // How many elements an element is inside, where this is the index of the one around it.
    fn depth_inside(&self, parent: usize) -> u8 {
        if parent < self.entry_count {
            self.entries[parent].depth.saturating_add(1)
        } else {
            0
        }
    }

    // Adds an element, if there is room.
    fn place(&mut self, entry: Entry) -> Result<(), Full>
        requires { entry.offset + entry.header_len + entry.contents_len ≤ self.old.end }
        ensures same { departures_of self.new ≡ departures_of self.old }
        ensures lost { self.new.lost ≡ self.old.lost }
        ensures kept { self.new.kept ≡ self.old.kept }
        ensures end { self.new.end ≡ self.old.end }
        ensures entries { self.new.entries.ghost_name ≡ self.old.entries.ghost_name }
        ensures departures { self.new.departures.ghost_name ≡ self.old.departures.ghost_name }
    {
        if self.entry_count >= self.entries.len() {
            return Err(Full);
        }
        self.entries[self.entry_count] = entry;
        self.entry_count += 1;
        Ok(())
    }

    /// Sets the number of contents octets of a stored element, after its contents were read. `rest`
    /// are the octets that follow the element.
    pub fn leave(&mut self, index: usize, entry: Entry, opened: Opened<'_>, rest: &[u8])
        requires { entry.offset + entry.header_len + length opened.inside.octets.now ≤ self.old.end }
        ensures log { Logs Der self.old self.new }
        ensures end { self.new.end ≡ self.old.end }
    {
        let contents_len = contents_len(opened, rest);
        if index < self.entry_count {
            self.entries[index] = Entry {
                contents_len,
                depth: self.entries[index].depth,
                ..entry
            };
        }
    }
}

// The number of contents octets of an element, after which this is the rest.
fn contents_len(opened: Opened<'_>, rest: &[u8]) -> usize
    ensures { result ≤ length opened.entry.inside.octets.now }
{
    let contents = opened.inside.octets.len();
    if opened.marked {
        contents.saturating_sub(rest.len()).saturating_sub(2)
    } else {
        contents
    }
}
