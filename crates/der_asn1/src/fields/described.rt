//! Types that have a specification of their elements, for proofs.

pub use der::Described;
