//! The script: steps, and the bytes that a terminal sends in each.

/// A step of the script.
#[derive(Clone, Copy)]
pub struct Step {
    /// What is to be seen.
    pub caption: &'static str,
    /// What the terminal sends: one block, with a pause after it.
    pub keys: &'static [u8],
}

/// The steps.
pub const STEPS: [Step; 10] = [
    Step {
        caption: "A name is typed. It is longer than its field",
        keys: b"Augusta King",
    },
    Step {
        caption: "With Shift and Left its last word is selected",
        keys: b"\x1b[1;2D\x1b[1;2D\x1b[1;2D\x1b[1;2D",
    },
    Step {
        caption: "What is typed takes its place",
        keys: b"Byron",
    },
    Step {
        caption: "Home shows the start",
        keys: b"\x1b[H",
    },
    Step {
        caption: "Two clicks in one cell select a word",
        keys: b"\x1b[<0;14;1M\x1b[<0;14;1m\x1b[<0;14;1M\x1b[<0;14;1m",
    },
    Step {
        caption: "Tab goes to the password, whose characters are stars",
        keys: b"\t",
    },
    Step {
        caption: "A password is typed",
        keys: b"s3cret",
    },
    Step {
        caption: "A drag selects a part of it",
        keys: b"\x1b[<0;12;3M\x1b[<32;14;3M",
    },
    Step {
        caption: "Tab goes to the button",
        keys: b"\t",
    },
    Step {
        caption: "Enter presses it",
        keys: b"\r",
    },
];
