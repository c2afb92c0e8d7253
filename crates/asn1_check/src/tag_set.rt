//! Sets of tags that values of a type may begin with.
ghost use Rattle.std.specs.Prelude.{◌≡◌, true};
ghost use Rattle.asn1_check.specs.TagSet.{AreDistinct};

use asn1_syntax::{Tag, TagClass};
use std::alloc::{AllocError, Global};

/// The set of tags that values of a type may begin with.
#[derive(Drop)]
pub struct TagSet {
    /// The tags in the set.
    pub tags: Vec<Tag>,
    /// Whether the set has every tag. The set of tags of `ANY` has every tag.
    pub is_any: bool,
}

impl TagSet {
    /// The empty set.
    pub fn empty(alloc: Global) -> Self {
        TagSet {
            tags: Vec::new(alloc),
            is_any: false,
        }
    }

    /// The set of all tags.
    pub fn any(alloc: Global) -> Self {
        TagSet {
            tags: Vec::new(alloc),
            is_any: true,
        }
    }

    /// The set whose only tag is `tag`.
    pub fn of(alloc: Global, tag: Tag) -> Result<Self, AllocError> {
        Ok(TagSet {
            tags: vec![in alloc; tag]?,
            is_any: false,
        })
    }

    /// The set whose only tag is the universal tag with this number.
    pub fn universal(alloc: Global, number: u64) -> Result<Self, AllocError> {
        TagSet::of(
            alloc,
            Tag {
                class: TagClass::Universal,
                number,
            },
        )
    }

    /// Adds the tags of `other` to this set.
    pub fn add(&mut self, other: &TagSet) -> Result<(), AllocError> {
        self.is_any = self.is_any || other.is_any;
        for tag in other.tags.iter() {
            self.tags.push(*tag)?;
        }
        Ok(())
    }

    /// Whether the two sets have no tag in common.
    pub fn is_distinct_from(&self, other: &TagSet) -> bool
        ensures { result ≡ true → AreDistinct self.now other.now }
    {
        if self.is_any {
            return !other.is_any && other.tags.is_empty();
        }
        if other.is_any {
            return self.tags.is_empty();
        }
        self.tags.iter().all(|tag| !other.tags.contains(tag))
    }
}
