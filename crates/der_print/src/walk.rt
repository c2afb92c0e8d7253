//! Printing of a value and of all elements inside it, with the names of their fields.

use crate::form::Form;
use crate::frame::{Frame, FrameKind, Frames};
use crate::printer::Printer;
use crate::scalars::{put_element, put_joined, put_tag, put_value};
use crate::text::{Stream, Target};
use ber::Universal;
use schema_cursor::Cursor;
use schema_types::{NodeKind, Schema};

/// The state of printing the elements of a tree, one after the other in the order of the input.
#[derive(Drop)]
pub(crate) struct Walk<'s, T: Target = Stream> {
    /// The printer, which knows the output and the format.
    pub printer: Printer<T>,
    /// The table of types by which the elements were read.
    pub schema: &'s Schema<'s>,
    /// The position at which the value begins in the file or in the PEM block. It is added to the
    /// offset of each element.
    pub base: usize,
    // The values around the next element, the innermost last.
    frames: Frames,
    // Whether the name of the next element is printed.
    is_keyed: bool,
    // Elements that are deeper are left out.
    skipped: Option<u8>,
}

/// What the caller of [`Walk::pass`] has to do next with the element.
#[derive(Clone, Copy)]
pub(crate) enum Left {
    /// The caller has nothing to do: the element was printed, or its beginning, or it is left out.
    Nothing,
    /// Only the name of the element was printed. The caller either prints the element in words of
    /// its own and then calls [`Walk::skip`], or calls [`Walk::put`]. The number is an argument of
    /// both functions: how many JSON objects are closed after the element.
    Words(u32),
}

/// The element with the index `index` in the tree. `None` if it is neither `root` nor inside
/// `root`.
pub(crate) fn inside(root: Cursor<'_>, index: usize) -> Option<Cursor<'_>> {
    let element = root.element(index)?;
    if index > root.index() && element.entry().depth <= root.entry().depth {
        return None;
    }
    Some(element)
}

impl<'s, T: Target> Walk<'s, T> {
    /// Creates the state before the first element. `base` is added to the offset of each element.
    pub fn new(schema: &'s Schema<'s>, printer: Printer<T>, base: usize) -> Self {
        Walk {
            printer,
            schema,
            base,
            frames: Frames::NONE,
            is_keyed: true,
            skipped: None,
        }
    }

    /// Prints `element`, or only its beginning if it has inner elements. In the format of lines,
    /// prints only the name of a constructed element inside the root, and returns [`Left::Words`].
    pub fn pass(&mut self, element: Cursor<'_>, is_root: bool) -> Left {
        let entry = element.entry();
        if let Some(depth) = self.skipped {
            if entry.depth > depth {
                return Left::Nothing;
            }
            self.skipped = None;
        }
        if !is_root {
            self.leave_to(entry.depth);
        }
        if !self.is_keyed && self.is_in_inner() {
            self.skipped = Some(entry.depth);
            return Left::Nothing;
        }
        if !self.is_keyed {
            self.put_key(element);
        }
        self.is_keyed = false;
        let wrappers = self.put_alternative(element);
        if !is_root && self.printer.form == Form::Lines && element.is_constructed() {
            return Left::Words(wrappers);
        }
        self.put(element, wrappers, !is_root);
        Left::Nothing
    }

    /// Leaves out all elements inside `element`, since the caller has printed them. Closes
    /// `wrappers` JSON objects.
    pub fn skip(&mut self, element: Cursor<'_>, wrappers: u32) {
        self.skipped = Some(element.entry().depth);
        self.close_wrappers(wrappers);
    }

    /// Closes all objects and lists that are still open, and returns the printer.
    pub fn end(mut self) -> Printer<T> {
        self.leave_to(0);
        self.printer
    }

    fn is_in_inner(&self) -> bool {
        match self.frames.last() {
            Some(frame) => frame.kind == FrameKind::Inner,
            None => false,
        }
    }

    fn start(&self, element: Cursor<'_>) -> usize {
        self.base.saturating_add(element.entry().offset)
    }

    // The name of a field, or the number of an item.
    fn put_key(&mut self, element: Cursor<'_>) {
        let (mut is_list, mut count) = (true, 0);
        if let Some(frame) = self.frames.count_part() {
            is_list = frame.kind == FrameKind::List;
            count = frame.count;
        }
        let start = self.start(element);
        match element.name() {
            Some(name) if !is_list => self.printer.key(name, count, start),
            None if !is_list => self.printer.key("unexpected", count, start),
            _ => self.printer.key("-", count, start),
        }
    }

    // The name of the alternative of a CHOICE, in an object of its own. Returns how many objects that are.
    fn put_alternative(&mut self, element: Cursor<'_>) -> u32 {
        match element.alternative() {
            Some(name) if !self.is_only_alternative(element) => {
                let start = self.start(element);
                self.printer.open("{", true);
                self.printer.key(name, 0, start);
                1
            }
            _ => 0,
        }
    }

    // Whether the field has a CHOICE of one alternative.
    fn is_only_alternative(&self, element: Cursor<'_>) -> bool {
        let field = element.entry().field;
        if field >= self.schema.counts().fields {
            return false;
        }
        let node = self.schema.field(field).node;
        if node >= self.schema.counts().nodes {
            return false;
        }
        let node = self.schema.node(node);
        node.kind == NodeKind::Choice && node.parts.count == 1
    }

    /// Prints the value of `element`, or only its beginning if it has inner elements. The name of
    /// the element was printed before. After the value, `wrappers` JSON objects are closed.
    pub fn put(&mut self, element: Cursor<'_>, wrappers: u32, is_named: bool) {
        let is_constructed = element.is_constructed();
        match element.kind() {
            Some(NodeKind::Explicit) => self.enter(element, FrameKind::Inner, is_named, wrappers),
            Some(NodeKind::SequenceOf | NodeKind::SetOf) => {
                self.printer.open("[", is_named);
                self.enter(element, FrameKind::List, is_named, wrappers);
            }
            Some(NodeKind::Universal(Universal::Sequence | Universal::Set))
                if has_fields(element) => {
                self.printer.open("{", is_named);
                self.enter(element, FrameKind::Object, is_named, wrappers);
            }
            Some(NodeKind::Universal(universal))
                if universal != Universal::Sequence && universal != Universal::Set => {
                if is_constructed {
                    self.put_segments(element);
                    self.close_wrappers(wrappers);
                } else if element.inner().is_some() {
                    self.enter(element, FrameKind::Inner, is_named, wrappers);
                    self.is_keyed = true;
                } else {
                    put_value(&mut self.printer, element);
                    self.close_wrappers(wrappers);
                }
            }
            _ if is_constructed => self.put_untyped(element, wrappers),
            _ => {
                put_element(&mut self.printer, element);
                self.close_wrappers(wrappers);
            }
        }
        if element.kind() == Some(NodeKind::Explicit) {
            self.is_keyed = true;
        }
    }

    // An object with the tag of an element, and a list of the elements inside it.
    fn put_untyped(&mut self, element: Cursor<'_>, wrappers: u32) {
        match self.printer.form {
            Form::Json => {
                self.printer.open("{", true);
                self.printer.key("tag", 0, 0);
                self.printer.out.put("\"");
                put_tag(&mut self.printer, element);
                self.printer.out.put("\"");
                self.printer.key("value", 0, 0);
            }
            Form::Lines => {
                self.printer.out.put(" ");
                put_tag(&mut self.printer, element);
            }
        }
        self.printer.open("[", true);
        let more = if self.printer.form == Form::Json {
            1
        } else {
            0
        };
        self.enter(
            element,
            FrameKind::List,
            true,
            wrappers.saturating_add(more),
        );
    }

    // The octets of a constructed string, joined.
    fn put_segments(&mut self, element: Cursor<'_>) {
        put_joined(&mut self.printer, element);
        self.skipped = Some(element.entry().depth);
    }

    fn enter(&mut self, element: Cursor<'_>, kind: FrameKind, is_named: bool, wrappers: u32) {
        let frame = Frame {
            kind,
            depth: element.entry().depth,
            is_named,
            count: 0,
            wrappers,
        };
        if !self.frames.push(frame) {
            self.printer.out.has_failed = true;
        }
    }

    // Closes the values that an element so deep is not inside of.
    fn leave_to(&mut self, depth: u8) {
        for _ in 0..=u8::MAX {
            match self.frames.last() {
                Some(frame) if frame.depth >= depth => self.leave(),
                _ => return,
            }
        }
    }

    fn leave(&mut self) {
        let Some(frame) = self.frames.pop() else {
            return;
        };
        if self.is_keyed {
            self.printer.put_nothing();
            self.is_keyed = false;
        }
        match frame.kind {
            FrameKind::Object => self.printer.close("}", frame.is_named),
            FrameKind::List => self.printer.close("]", frame.is_named),
            FrameKind::Inner => {}
        }
        self.close_wrappers(frame.wrappers);
    }

    fn close_wrappers(&mut self, count: u32) {
        for _ in 0..count {
            self.printer.close("}", true);
        }
    }
}

// Whether a SEQUENCE or a SET has fields, or nothing.
fn has_fields(element: Cursor<'_>) -> bool {
    match element.node() {
        Some(node) => node.parts.count > 0 || element.contents().is_empty(),
        None => false,
    }
}
