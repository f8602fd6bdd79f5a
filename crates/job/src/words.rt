// The words of a job text. Each list stands in the order of its cases.

pub const PRACTICES: [&[u8]; 9] = [
    b"trench",
    b"basin",
    b"biofilter",
    b"wetland",
    b"isr",
    b"sand",
    b"wetpond",
    b"drypond",
    b"swale",
];

pub const NUTRIENTS: [&[u8]; 2] = [b"P", b"N"];

pub const MODES: [&[u8]; 2] = [b"step", b"mix"];

pub const TASKS: [&[u8]; 3] = [b"load", b"credit", b"size"];

pub const LANDS: [&[u8]; 9] = [
    b"com", b"ind", b"hdr", b"mdr", b"ldr", b"hwy", b"for", b"open", b"ag",
];

pub const COVERS: [&[u8]; 2] = [b"imp", b"per"];

pub const SOILS: [&[u8]; 7] = [b"A", b"B", b"C", b"CD", b"D", b"U", b"-"];
