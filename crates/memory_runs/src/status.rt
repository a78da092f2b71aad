//! Edits of a status, which may be refused memory.
use mvt_plane::Count;
use mvt_status::Status;
use std::alloc::AllocError;

/// The most edges that are checked.
const ROOM: usize = 128;

/// An edit of a status.
#[derive(Clone, Copy)]
pub(crate) enum Edit {
    Insert,
    InsertTwo,
    Replace,
}

/// Where a status is edited.
#[derive(Clone, Copy)]
pub(crate) enum Place {
    Front,
    Middle,
    End,
}

/// What came of edits, of which each that is refused is made again.
#[derive(Clone, Copy, Debug, PartialEq, Eq)]
pub(crate) struct Course {
    /// How many were refused.
    pub refusals: usize,
    /// How many edges there were when one was.
    pub length: usize,
    /// Whether each refusal left the edges as they were.
    pub is_kept: bool,
    /// Whether each edit was made at last, and the edges were the right ones then.
    pub is_made: bool,
}

/// The edges of a status, in order.
#[derive(Clone, Copy, PartialEq, Eq)]
struct Edges {
    numbers: [usize; ROOM],
    count: usize,
}

impl Edges {
    /// No edges.
    fn none() -> Edges {
        Edges {
            numbers: [0; ROOM],
            count: 0,
        }
    }

    /// The edges of a status.
    fn of<S: Status>(status: &S) -> Edges {
        let mut edges = Edges::none();
        for at in 0..status.len() {
            edges.push(status.get(at, &mut Count::new()));
        }
        edges
    }

    fn push(&mut self, edge: usize) {
        if let Some(slot) = self.numbers.get_mut(self.count) {
            *slot = edge;
        }
        self.count = self.count.saturating_add(1);
    }

    /// The edges after an edit.
    fn edited(&self, edit: Edit, at: usize, (lower, upper): (usize, usize)) -> Edges {
        let mut edges = Edges::none();
        for (number, edge) in self.numbers.iter().enumerate() {
            if number == at {
                edges.push(lower);
                if matches!(edit, Edit::InsertTwo) {
                    edges.push(upper);
                }
            }
            let is_taken = number == at && matches!(edit, Edit::Replace);
            if number < self.count && !is_taken {
                edges.push(*edge);
            }
        }
        edges
    }
}

impl Edit {
    /// Makes the edit. It is refused where there is no such place, too.
    fn make<S: Status>(
        self,
        status: &mut S,
        at: usize,
        (lower, upper): (usize, usize),
    ) -> Result<(), AllocError> {
        let mut count = Count::new();
        let length = status.len();
        match self {
            Edit::Insert if at <= length => status.insert(at, lower, &mut count),
            Edit::InsertTwo if at <= length => status.insert_two(at, lower, upper, &mut count),
            Edit::Replace if at < length => status.replace(at, lower, &mut count),
            _ => Err(AllocError),
        }
    }
}

impl Place {
    /// The place of an edit among so many edges.
    fn among(self, edit: Edit, length: usize) -> usize {
        match (self, edit) {
            (Place::Front, _) => 0,
            (Place::Middle, _) => length / 2,
            (Place::End, Edit::Replace) => length.saturating_sub(1),
            (Place::End, _) => length,
        }
    }
}

impl Course {
    /// Before any edit.
    pub(crate) fn new() -> Course {
        Course {
            refusals: 0,
            length: 0,
            is_kept: true,
            is_made: true,
        }
    }

    /// Edits a status, whose edges are numbered below 500.
    pub(crate) fn edit<S: Status>(&mut self, status: &mut S, edit: Edit, place: Place) {
        let before = Edges::of(status);
        let at = place.among(edit, before.count);
        let new = (
            before.count.saturating_add(500),
            before.count.saturating_add(800),
        );
        if edit.make(status, at, new).is_err() {
            self.refusals = self.refusals.saturating_add(1);
            self.length = before.count;
            self.is_kept = self.is_kept && Edges::of(status) == before;
            self.is_made = self.is_made && edit.make(status, at, new).is_ok();
        }
        self.is_made = self.is_made && Edges::of(status) == before.edited(edit, at, new);
    }
}
