//! Tables of types.
ghost use Rattle.std.specs.Prelude.{◌≡◌, length};
ghost use Rattle.std.proofs.Props.{props};
ghost use Rattle.schema_types.specs.Counts.{counts_in, size_of};
ghost use Rattle.schema_types.specs.Pool.{pool_in};
ghost use Rattle.schema_types.specs.Table.{table_in, AreRows, AreAscending, AreAscending-prop};
ghost use Rattle.schema_types.specs.Distinct.{AreNested, AreDistinct};
ghost use Rattle.schema_types.specs.Schema.{IsHeader};

use crate::counts::Counts;
use crate::distinct::check_distinct;
use crate::fault::Fault;
use crate::field::Field;
use crate::find::{find_node, find_open_type};
use crate::header::read_header;
use crate::limit::Limit;
use crate::limit_kind::LimitKind;
use crate::name::Name;
use crate::nesting::check_nesting;
use crate::node::Node;
use crate::open_type::OpenType;
use crate::pool::{octets_of, text_of};
use crate::rows::Rows;
use crate::sections::check_rows;
use crate::select::find_selected;
use crate::selected::Selected;
use crate::sought::Sought;
use crate::span::Span;
use der_base::Class;

/// A table of types, read from octets without copying them.
#[derive(Debug, Clone, Copy, PartialEq, Eq)]
pub struct Schema<'a> {
    octets: &'a [u8],
    counts: Counts,
    pool: &'a [u8],
    ghost header: { IsHeader octets.now } by { Prim.hlevel props },
    ghost counted: { counts ≡ counts_in octets.now } by { Prim.hlevel props },
    ghost sized: { size_of counts ≡ length octets.now },
    ghost pooled: { pool.now ≡ pool_in counts octets.now },
    ghost rows: { AreRows counts octets.now } by { Prim.hlevel props },
    ghost ascending: { AreAscending counts octets.now } by { AreAscending-prop counts octets.now },
    ghost nested: { AreNested (table_in octets.now) } by { Prim.hlevel props },
    ghost distinct: { AreDistinct (table_in octets.now) } by { Prim.hlevel props },
}

impl<'a> Schema<'a> {
    ghost use Rattle.std.specs.Prelude.{◌↔◌, ◌<◌, slice_get, Some, IsTrue, IfOk, IfErr, IsOk, IfSome, IfNone};
    ghost use Rattle.schema_types.specs.Span.{IsWithin};
    ghost use Rattle.schema_types.specs.Pool.{octets_of, IsText};
    ghost use Rattle.schema_types.specs.Node.{IsNode};
    ghost use Rattle.schema_types.specs.Field.{IsField};
    ghost use Rattle.schema_types.specs.Name.{IsName};
    ghost use Rattle.schema_types.specs.OpenType.{IsOpenType, Ascends};
    ghost use Rattle.schema_types.specs.Chosen.{IsChosen, ChoosesNone, ChoosesRow, ChoosesNoRow};
    ghost use Rattle.schema_types.specs.Named.{IsNamed, NoneIsNamed};
    ghost use Rattle.schema_types.specs.Table.{Table, table_in, counts_of, IsAscending};
    ghost use Rattle.schema_types.specs.Schema.{IsSchema, IsFault};
    ghost use Rattle.schema_types.specs.Tags.{IsSelected, Begins};
    ghost use Rattle.schema_types.specs.Numbered.{IsFirstNamed, NoneHasNumber};
    ghost use Rattle.schema_types.specs.Allowed.{IsAllowed};

    /// Reads a table of types from all of `octets`.
    ///
    /// # Errors
    ///
    /// The octets are not a well-formed table. The [`Fault`] says why, and at which offset.
    pub fn new(octets: &'a [u8]) -> Result<Self, Fault>
        ensures ok { IfOk result (λ s. IsSchema octets.now (table_in s.octets.now)) }
        ensures same { IfOk result (λ s. s.octets.now ≡ octets.now) }
        ensures complete { (t : Table) → IsSchema octets.now t → IsOk result }
        ensures fault { IfErr result (λ f. IsFault octets.now f) }
    {
        let counts = read_header(octets)?;
        let pool = &octets[counts.pool_at()..];
        check_rows(octets, counts, pool)?;
        let rows = Rows {
            octets,
            counts,
            pool,
        };
        check_nesting(&rows)?;
        check_distinct(&rows)?;
        Ok(Schema {
            octets,
            counts,
            pool,
        })
    }
    /// Returns how many rows each section has, and how many octets the pool has. The contract of
    /// this function also states that the octets of a `Schema` are always a well-formed table.
    #[inline(always)]
    pub fn counts(&self) -> Counts
        ensures value { result ≡ counts_of (table_in self.now.octets.now) }
        ensures same { result ≡ self.now.counts }
        ensures table { IsSchema self.now.octets.now (table_in self.now.octets.now) }
    {
        self.counts
    }

    /// The node with this index, from 0. The caller must ensure that there is one.
    #[inline(always)]
    pub fn node(&self, index: u32) -> Node
        requires { index < self.now.counts.nodes }
        ensures value { slice_get (table_in self.now.octets.now).nodes index ≡ Some result }
        ensures fits { IsNode self.now.counts self.now.pool.now result }
        ensures ascending { IsAscending self.now.counts self.now.octets.now result }
    {
        Node::read(self.octets, 32 + 40 * index as usize)
    }

    /// The field with this index, from 0, among all fields of the table. The caller must ensure
    /// that there is one.
    #[inline(always)]
    pub fn field(&self, index: u32) -> Field
        requires { index < self.now.counts.fields }
        ensures value { slice_get (table_in self.now.octets.now).fields index ≡ Some result }
        ensures fits { IsField self.now.counts self.now.pool.now result }
    {
        Field::read(self.octets, self.counts.fields_at() + 28 * index as usize)
    }

    /// The limit with this index, from 0, among all limits of the table. The caller must ensure
    /// that there is one.
    #[inline(always)]
    pub fn limit(&self, index: u32) -> Limit
        requires { index < self.now.counts.limits }
        ensures { slice_get (table_in self.now.octets.now).limits index ≡ Some result }
    {
        Limit::read(self.octets, self.counts.limits_at() + 20 * index as usize)
    }

    /// The name with this index, from 0, among all names of numbers of the table. The caller must
    /// ensure that there is one.
    #[inline(always)]
    pub fn name(&self, index: u32) -> Name
        requires { index < self.now.counts.names }
        ensures value { slice_get (table_in self.now.octets.now).names index ≡ Some result }
        ensures fits { IsName self.now.pool.now result }
    {
        Name::read(self.octets, self.counts.names_at() + 16 * index as usize)
    }

    /// The row with this index, from 0, of the section of types that open types may be. The caller
    /// must ensure that there is one.
    #[inline(always)]
    pub fn open_type(&self, index: u32) -> OpenType
        requires { index < self.now.counts.opens }
        ensures value { slice_get (table_in self.now.octets.now).opens index ≡ Some result }
        ensures fits { IsOpenType self.now.counts self.now.pool.now result }
    {
        OpenType::read(self.octets, self.counts.opens_at() + 12 * index as usize)
    }

    /// The index of the first node with this name, if there is one.
    pub fn find_node(&self, name: &str) -> Option<u32>
        ensures found { IfSome result
            (λ i. IsNamed self.now.counts self.now.octets.now name.now i) }
        ensures none { IfNone result
            (NoneIsNamed self.now.counts self.now.octets.now name.now self.now.counts.nodes) }
    {
        find_node(self.octets, self.counts, self.pool, name.as_bytes())
    }

    /// Finds the type that an OBJECT IDENTIFIER chooses for an open type. `None` if no type has
    /// this OBJECT IDENTIFIER. `types` are the `parts` of the node of the open type. `identifier`
    /// has the contents octets of the OBJECT IDENTIFIER.
    ///
    /// The caller must ensure that `types` is a range of rows sorted by OBJECT IDENTIFIER. The
    /// parts of an open type that [`Schema::node`] returns are sorted.
    pub fn find_open_type(&self, types: Span, identifier: &[u8]) -> Option<OpenType>
        requires there { IsWithin types self.now.counts.opens }
        requires ascending { Ascends self.now.counts self.now.octets.now types }
        ensures found { IfSome result
            (λ o. IsChosen self.now.counts self.now.octets.now types identifier.now o) }
        ensures none { IfNone result
            (ChoosesNone self.now.counts self.now.octets.now types identifier.now) }
        ensures row { IfSome result
            (ChoosesRow (table_in self.now.octets.now) types identifier.now) }
        ensures no_row { IfNone result
            (ChoosesNoRow (table_in self.now.octets.now) types identifier.now) }
        ensures fits { IfSome result (λ o. IsOpenType self.now.counts self.now.pool.now o) }
    {
        find_open_type(self.octets, self.counts, self.pool, types, identifier)
    }

    /// Finds the type of a value by the tag with which the value begins. `index` is the node that
    /// the value must belong to; the caller must ensure that there is one.
    ///
    /// - For a CHOICE, returns the alternative with this tag. If that alternative is a CHOICE,
    ///   returns the alternative inside.
    /// - For any other type, returns the node `index` itself.
    /// - Returns `None` if no value of the node begins with this tag.
    #[inline(always)]
    pub fn select(&self, index: u32, class: Class, number: u32) -> Option<Selected>
        requires { index < self.now.counts.nodes }
        ensures found { IfSome result (λ s.
            IsSelected (table_in self.now.octets.now) index class number s.field s.node) }
        ensures there { IfSome result (λ s. s.node < self.now.counts.nodes) }
        ensures field_there { IfSome result
            (λ s. IfSome s.field (λ k. k < self.now.counts.fields)) }
        ensures none { IfNone result
            (Begins (table_in self.now.octets.now) index class number → ⊥) }
    {
        let rows = Rows {
            octets: self.octets,
            counts: self.counts,
            pool: self.pool,
        };
        find_selected(&rows, index, Sought::tag(class, number))
    }

    /// Returns the first name that stands for `number` among the rows `names`. These rows are the
    /// `parts` of the node of an ENUMERATED, an INTEGER or a BIT STRING. The bits of a BIT STRING
    /// are counted from 0. The caller must ensure that `names` is a range of rows of the section of
    /// names.
    pub fn name_of_number(&self, names: Span, number: i64) -> Option<Name>
        requires { IsWithin names self.now.counts.names }
        ensures found { IfSome result
            (IsFirstNamed (table_in self.now.octets.now) names number) }
        ensures none { IfNone result
            (NoneHasNumber (table_in self.now.octets.now) names number) }
        ensures fits { IfSome result (λ n. IsName self.now.pool.now n) }
    {
        for k in names.start..names.end(self.counts.names) {
            let name = self.name(k);
            if name.number == number {
                return Some(name);
            }
        }
        None
    }

    /// Whether the limits of a node allow a number. The result is true if one of the `limits` is of
    /// this `kind` and has the number in its range. It is also true if none of the `limits` is of
    /// this kind. The caller must ensure that `limits` is a range of rows of the section of limits.
    pub fn is_within_limits(&self, limits: Span, kind: LimitKind, number: i64) -> bool
        requires { IsWithin limits self.now.counts.limits }
        ensures { IsTrue result ↔ IsAllowed (table_in self.now.octets.now) limits kind number }
    {
        let mut limited = false;
        for k in limits.start..limits.end(self.counts.limits) {
            let limit = self.limit(k);
            if limit.is_of(kind) {
                if limit.allows(number) {
                    return true;
                }
                limited = true;
            }
        }
        !limited
    }

    /// The octets of a range of the pool. The caller must ensure that `span` is within the pool.
    /// All ranges of octets in the rows of this table are within the pool.
    #[inline(always)]
    pub fn octets_of(&self, span: Span) -> &'a [u8]
        requires { IsWithin span (length self.now.pool.now) }
        ensures { result.now ≡ octets_of (table_in self.now.octets.now).pool span }
    {
        octets_of(self.pool, span)
    }

    /// The text of a range of the pool. The caller must ensure that `span` is within the pool and
    /// that its octets are UTF-8. Both hold for all names in the rows of this table.
    #[inline(always)]
    pub fn text_of(&self, span: Span) -> &'a str
        requires { IsText self.now.pool.now span }
        ensures { result.now ≡ octets_of (table_in self.now.octets.now).pool span }
    {
        text_of(self.pool, span)
    }
}
