// What was done, as text.
use block_address::Address;
use geometry::array_geometry::Geometry;
use geometry::layout::Layout;
use geometry::place::Content;
use geometry::shape::MOST_MEMBERS;
use program_parts::layout_kind::LayoutKind;
use std::{array, fmt};

/// How many stripes are shown.
const SHOWN: usize = 8;

/// What a member holds in a stripe: a data block, by its number, parity, or nothing where there is no such member.
#[derive(Clone, Copy)]
struct Cell(Option<Content>);

/// The blocks of data and of parity on a member.
#[derive(Clone, Copy, Default)]
struct Tally {
    data_blocks: usize,
    parity_blocks: usize,
}

/// What lies where.
#[derive(Clone, Copy)]
pub struct Picture {
    members: usize,
    stripes: usize,
    tallies: [Tally; MOST_MEMBERS],
    cells: [[Cell; MOST_MEMBERS]; SHOWN],
}

/// What became of a file on the members.
#[derive(Clone, Copy)]
pub struct Carried {
    pub lost: usize,
    pub worked_out: usize,
    pub wrong: usize,
    pub back: bool,
}

/// What was done with a file.
#[derive(Clone, Copy)]
pub struct Summary {
    pub bytes: usize,
    pub blocks: usize,
    pub layout: LayoutKind,
    pub picture: Picture,
    pub carried: Carried,
}

impl Cell {
    fn new<L: Layout>(geometry: &Geometry<L>, stripe: usize, member: usize) -> Cell {
        let parity = geometry.parity_address(stripe);
        Cell(parity.and_then(|at| {
            let block = at.block;
            geometry.content(Address { member, block })
        }))
    }
}

impl Tally {
    fn new<L: Layout>(geometry: &Geometry<L>, member: usize) -> Tally {
        let mut tally = Tally::default();
        for stripe in 0..geometry.shape.stripes() {
            match Cell::new(geometry, stripe, member).0 {
                Some(Content::Data(_)) => tally.data_blocks = tally.data_blocks.saturating_add(1),
                Some(Content::Parity) => {
                    tally.parity_blocks = tally.parity_blocks.saturating_add(1)
                }
                None => {}
            }
        }
        tally
    }
}

impl Picture {
    /// What lies where in an array of this geometry.
    pub fn new<L: Layout>(geometry: &Geometry<L>) -> Picture {
        Picture {
            members: geometry.shape.members().get(),
            stripes: geometry.shape.stripes(),
            tallies: array::from_fn(|member| Tally::new(geometry, member)),
            cells: array::from_fn(|stripe| {
                array::from_fn(|member| Cell::new(geometry, stripe, member))
            }),
        }
    }
}

impl fmt::Display for Cell {
    fn fmt<W: fmt::Write>(&self, f: &mut fmt::Formatter<W>) -> fmt::Result {
        match self.0 {
            Some(Content::Data(block)) => write!(f, " D{block}"),
            Some(Content::Parity) => write!(f, " P"),
            None => Ok(()),
        }
    }
}

impl fmt::Display for Tally {
    fn fmt<W: fmt::Write>(&self, f: &mut fmt::Formatter<W>) -> fmt::Result {
        write!(
            f,
            "{} data, {} parity",
            self.data_blocks, self.parity_blocks
        )
    }
}

impl fmt::Display for Picture {
    fn fmt<W: fmt::Write>(&self, f: &mut fmt::Formatter<W>) -> fmt::Result {
        for (member, tally) in self.tallies.iter().take(self.members).enumerate() {
            writeln!(f, "member {member}: {tally}")?;
        }
        for (stripe, cells) in self.cells.iter().take(self.stripes).enumerate() {
            write!(f, "stripe {stripe}:")?;
            for cell in cells {
                write!(f, "{cell}")?;
            }
            writeln!(f, "")?;
        }
        Ok(())
    }
}

impl fmt::Display for Carried {
    fn fmt<W: fmt::Write>(&self, f: &mut fmt::Formatter<W>) -> fmt::Result {
        let (lost, worked_out) = (self.lost, self.worked_out);
        writeln!(
            f,
            "member {lost} forgotten, {worked_out} blocks worked out of the others"
        )?;
        writeln!(f, "{} stripes with wrong parity", self.wrong)?;
        f.write_str(if self.back {
            "all bytes came back"
        } else {
            "some bytes did not come back"
        })
    }
}

impl fmt::Display for Summary {
    fn fmt<W: fmt::Write>(&self, f: &mut fmt::Formatter<W>) -> fmt::Result {
        let (bytes, blocks) = (self.bytes, self.blocks);
        writeln!(f, "{bytes} bytes read, {blocks} blocks")?;
        let Picture {
            members,
            stripes,
            ..
        } = self.picture;
        let layout = self.layout;
        writeln!(f, "{members} members, layout {layout}, {stripes} stripes")?;
        write!(f, "{}{}", self.picture, self.carried)
    }
}
