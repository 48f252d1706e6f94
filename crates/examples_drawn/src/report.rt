//! A table that a program makes of what it knows, laid out at two widths.
//!
//! No name can add a column or a star, and none reaches the terminal as an escape sequence.
use std::alloc::{AllocError, Global};
use std::borrow::CowStr;
use std::io;
use termimad::{
    Alignment, Error, FmtText, MadSkin, Out, Stream, Text, printable, put_all, put_displayed,
};

struct Disk {
    name: &'static str,
    holds: &'static str,
    used_percent: u8,
}

const DISKS: [Disk; 5] = [
    Disk {
        name: "/",
        holds: "the system and its *logs*",
        used_percent: 41,
    },
    Disk {
        name: "/data/a|b",
        holds: "what `*star*` keeps",
        used_percent: 97,
    },
    Disk {
        name: "|-|",
        holds: "a name like a rule's",
        used_percent: 64,
    },
    Disk {
        name: "/\u{1b}[2Jx",
        holds: "a name that would clear the screen",
        used_percent: 0,
    },
    Disk {
        name: "/概要",
        holds: "reports such as this one",
        used_percent: 8,
    },
];

const HEADERS: [&str; 3] = ["disk", "holds", "used"];

const ALIGNMENTS: [Alignment; 3] = [Alignment::Left, Alignment::Left, Alignment::Right];

pub fn run(rt: &HostRuntime) -> Result<(), Error> {
    let alloc = rt.alloc();
    let skin = MadSkin::default();
    let mut out = Stream::new(io::writer(rt));
    let cells = cells_of(alloc, &DISKS)?;
    for width in [48, 30] {
        let report = FmtText::from_text(alloc, &skin, table_of(alloc, &cells)?, Some(width))?;
        put_displayed(alloc, &mut out, 0, &report)?;
        put_all(&mut out, b"\n")?;
    }
    out.flush()?;
    Ok(())
}

// The texts of a disk's row.
#[derive(Drop)]
struct Cells {
    name: CowStr<'static, Global>,
    holds: CowStr<'static, Global>,
    used: String,
}

fn cells_of(alloc: Global, disks: &[Disk]) -> Result<Vec<Cells>, AllocError> {
    let mut cells = Vec::new(alloc);
    for disk in disks {
        let used_percent = disk.used_percent;
        cells.push(Cells {
            name: printable(alloc, disk.name)?,
            holds: printable(alloc, disk.holds)?,
            used: format!(in alloc; "{used_percent} %")?,
        })?;
    }
    Ok(cells)
}

// The disks as a table, the percentages on the right.
fn table_of<'c>(alloc: Global, cells: &'c [Cells]) -> Result<Text<'c>, AllocError> {
    let mut rows = Vec::new(alloc);
    for Cells { name, holds, used } in cells {
        rows.push(vec![in alloc; name.as_str(), holds.as_str(), used.as_str()]?)?;
    }
    Text::from_table(alloc, &HEADERS, &ALIGNMENTS, &rows)
}
