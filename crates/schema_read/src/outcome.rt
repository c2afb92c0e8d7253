//! Results of reading a part of the octets.

use crate::known::Known;
use crate::verdict::Verdict;

/// The result of reading an element or a part of it: the verdict, and the octets after what was
/// read.
#[derive(Clone, Copy)]
pub(crate) struct Outcome<'a> {
    pub verdict: Verdict,
    pub rest: &'a [u8],
}

/// The result of reading a component: the verdict, the octets after the component, and the last
/// OBJECT IDENTIFIER that was read. That OBJECT IDENTIFIER may choose the type of an open type.
#[derive(Clone, Copy)]
pub(crate) struct Step<'a> {
    pub verdict: Verdict,
    pub rest: &'a [u8],
    pub known: Option<Known<'a>>,
}
