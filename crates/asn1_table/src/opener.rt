//! How the types of open types are chosen.

/// How the types of the open types in a component are chosen.
#[derive(Clone, Copy)]
pub struct Opener<'a> {
    /// The index in the table of the field whose value chooses the type. `None` if there is no such
    /// field.
    pub chooser: Option<u32>,
    /// The name of the open type. Empty for an `ANY` without a name.
    pub table: &'a str,
    /// The index of the table constraint whose information objects choose the type. `None` if
    /// comments in the module say which types are chosen.
    pub objects: Option<usize>,
    /// Whether the component is a string, and the contents of the string are an encoding of the
    /// open type.
    pub is_string: bool,
    /// The index of the type that a comment in front of the component gives. The component has this
    /// type, after its tags, in place of the written type.
    pub own: Option<usize>,
}

impl<'a> Opener<'a> {
    /// There is no open type whose type is chosen.
    pub const NONE: Opener<'static> = Opener {
        chooser: None,
        table: "",
        objects: None,
        is_string: false,
        own: None,
    };

    /// A copy in which `own` is the type that a comment gives the component.
    pub fn with_own(self, own: Option<usize>) -> Self {
        Opener { own, ..self }
    }
}
