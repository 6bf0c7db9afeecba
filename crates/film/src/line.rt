// A line of film, with its fields as parts of the text.

#[derive(Clone, Copy)]
pub enum Line<'a> {
    // `M name step tolerance`: what is in force from here on.
    Setting {
        name: &'a [u8],
        step: &'a [u8],
        tolerance: &'a [u8],
    },
    // `Q column row`: a square opens; its nodes follow.
    Square {
        column: &'a [u8],
        row: &'a [u8],
    },
    // `S`: a node is split into quarters.
    Split,
    // `T`: a transform leaf, with what follows the letter: each field with a tab before it.
    Levels {
        pairs: &'a [u8],
    },
    // `R`: a raw leaf, likewise.
    Raw {
        samples: &'a [u8],
    },
}
