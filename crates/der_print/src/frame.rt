//! The stack of the values around the element that is being printed.
ghost use Rattle.std.specs.Prelude.{◌≤◌};

/// How the elements directly inside a value are printed.
#[derive(Clone, Copy, PartialEq, Eq)]
pub enum FrameKind {
    /// Each element is printed as a field of a JSON object, or on a line, with the name of the
    /// field.
    Object,
    /// Each element is printed as an item of a JSON list without a name, or on a line with its
    /// number.
    List,
    /// The value contains exactly one element, such as the element under an EXPLICIT tag. This
    /// element is printed as if it were the value itself.
    Inner,
}

/// A value around the element that is being printed.
#[derive(Clone, Copy)]
pub struct Frame {
    /// How the elements directly inside the value are printed.
    pub kind: FrameKind,
    /// The number of elements that enclose the value.
    pub depth: u8,
    /// Whether a name was printed for the value. Its inner elements are then indented below the
    /// name.
    pub is_named: bool,
    /// The number of elements directly inside the value that were printed so far.
    pub count: usize,
    /// The number of JSON objects that were opened only for the value, and that are closed after
    /// it. One is opened for an alternative of a CHOICE, and one for a value whose type is not
    /// known.
    pub wrappers: u32,
}

impl Frame {
    /// The placeholder for the unused items of [`Frames`].
    const NONE: Frame = Frame {
        kind: FrameKind::Inner,
        depth: 0,
        is_named: false,
        count: 0,
        wrappers: 0,
    };
}

/// A stack of the values around the element that is being printed. The innermost value is the last
/// one. The stack has room for 128 values.
#[derive(Drop)]
pub struct Frames {
    items: [Frame; 128],
    count: usize,
    ghost within: { count ≤ 128 },
}

impl Frames {
    /// The empty stack.
    pub const NONE: Frames = Frames {
        items: [Frame::NONE; 128],
        count: 0,
    };

    /// Returns the innermost value, or `None` if the stack is empty.
    pub fn last(&self) -> Option<Frame> {
        if self.count == 0 {
            return None;
        }
        Some(self.items[self.count - 1])
    }

    /// Adds one to the `count` of the innermost value, and returns the value as it was before.
    /// Returns `None` if the stack is empty.
    pub fn count_part(&mut self) -> Option<Frame> {
        if self.count == 0 {
            return None;
        }
        let at = self.count - 1;
        let frame = self.items[at];
        self.items[at] = Frame {
            count: frame.count.saturating_add(1),
            ..frame
        };
        Some(frame)
    }

    /// Adds `frame` as the innermost value. Returns false, and adds nothing, if the stack is full.
    pub fn push(&mut self, frame: Frame) -> bool {
        if self.count >= 128 {
            return false;
        }
        self.items[self.count] = frame;
        self.count += 1;
        true
    }

    /// Removes the innermost value and returns it. Returns `None` if the stack is empty.
    pub fn pop(&mut self) -> Option<Frame> {
        if self.count == 0 {
            return None;
        }
        self.count -= 1;
        Some(self.items[self.count])
    }
}
