// The nodes of a tree in preorder. A split that parts nothing in its box is left out.
use crate::pile::Pile;
use crate::region::{Places, Region, Side};
use rail_model::Node;
use std::alloc::{AllocError, Global};

/// A part of a tree: a leaf, or a split with the numbers of its halves.
#[derive(Clone, Copy)]
pub(crate) enum Part {
    Leaf(Node),
    Split {
        train: u32,
        place: u32,
        lower: usize,
        upper: usize,
    },
}

/// What is done next: write a part, or give a train these places.
#[derive(Clone, Copy)]
enum Step {
    Write(usize),
    Give { train: u32, places: Places },
}

/// The box of the next part, the nodes so far, and the steps to come, the last one first.
#[derive(Drop)]
struct Writing {
    region: Region,
    nodes: Pile<Node>,
    steps: Pile<Step>,
}

impl Writing {
    fn write(&mut self, part: Part) {
        match part {
            Part::Leaf(node) => self.nodes.push(node),
            Part::Split {
                train,
                place,
                lower,
                upper,
            } => self.write_split(train, place, lower, upper),
        }
    }

    fn write_split(&mut self, train: u32, place: u32, lower: usize, upper: usize) {
        let places = self.region.places(train);
        if place >= places.hi {
            self.steps.push(Step::Write(lower));
        } else if place < places.lo {
            self.steps.push(Step::Write(upper));
        } else {
            self.nodes.push(Node::Split { train, place });
            self.steps.push(Step::Give { train, places });
            self.half(train, places.half(Side::Upper, place), upper);
            self.half(train, places.half(Side::Lower, place), lower);
        }
    }

    // Before the steps to come a part is written, in the box with these places of a train.
    fn half(&mut self, train: u32, places: Places, part: usize) {
        self.steps.push(Step::Write(part));
        self.steps.push(Step::Give { train, places });
    }

    fn write_all(&mut self, parts: &[Part]) {
        for _ in 0..parts.len().saturating_mul(6) {
            match self.steps.pop() {
                Some(Step::Write(number)) => if let Some(part) = parts.get(number) {
                    self.write(*part);
                },
                Some(Step::Give { train, places }) => self.region.set(train, places),
                None => return,
            }
        }
    }
}

/// The nodes of the tree that begins with a part, in the box of all places.
pub(crate) fn spelled(
    alloc: Global,
    region: Region,
    parts: &[Part],
    first: usize,
) -> Result<Vec<Node>, AllocError> {
    let mut writing = Writing {
        region,
        nodes: Pile::new(alloc),
        steps: Pile::new(alloc),
    };
    writing.steps.push(Step::Write(first));
    writing.write_all(parts);
    if writing.steps.is_short() {
        return Err(AllocError);
    }
    writing.nodes.whole()
}
