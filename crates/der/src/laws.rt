//! Properties that follow from the contracts. Each function has a property as its contract, and
//! does nothing. Nothing calls the functions of this module.
ghost use Rattle.std.specs.Prelude.{◌≡◌, ℕ, ◌≤◌, List};
ghost use Rattle.der_base.specs.declared.tag.Tag.{Tag};
ghost use Rattle.der.specs.Joined.{Joined};

/// Does nothing. The contract of this function states that joining segments (X.690 8.7.3) is
/// unambiguous: the same octets, with the same tag of the segments and the same limit on nesting,
/// have at most one joined result.
fn joined_once()
    ensures { (tag : Tag) (levels : ℕ) (octets x y : List ℕ) → Joined tag levels octets x
        → Joined tag levels octets y → x ≡ y }
{}

/// Does nothing. The contract of this function states that a higher limit on nesting does not
/// change the result of joining segments (X.690 8.7.3): a joined result under one limit is also the
/// joined result under every higher limit.
fn joined_with_more_levels()
    ensures { (tag : Tag) (levels more : ℕ) (octets out : List ℕ) → Joined tag levels octets out
        → levels ≤ more → Joined tag more octets out }
{}
