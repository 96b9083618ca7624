// The defaults of Table 3-25: an array for each type, from the lowest id of the type on.

// Defaults of 0x6000 to 0x6005, by the kind of board.
// Kept: three arrays of one length, of which a kind of board has one; they are no columns of one table.
pub const DISTRIBUTION_DEFAULT: [u32; 6] = [0, 0, 0x00000111, 0x11111222, 0x00000111, 0x11111222];

pub const BATTERY_DEFAULT: [u32; 6] = [0; 6];

pub const INTEGRATED_DEFAULT: [u32; 6] = [0, 0, 0x00000023, 0x11111134, 0x00000023, 0x11111134];

// Defaults of 0x4000 to 0x4043.
pub const UINT16_DEFAULT: [u16; 68] = [
    // 0x4000
    300,
    // 0x4001
    0,
    // 0x4002 to 0x4021
    0, 0, 0, 0, 0, 0, 0, 0, 0, 0, 0, 0, 0, 0, 0, 0, 0, 0, 0, 0, 0, 0, 0, 0, 0, 0, 0, 0, 0, 0, 0, 0,
    // 0x4022 to 0x4041
    5000, 5000, 5000, 5000, 5000, 5000, 5000, 5000, 5000, 5000, 5000, 5000, 5000, 5000, 5000, 5000,
    5000, 5000, 5000, 5000, 5000, 5000, 5000, 5000, 5000, 5000, 5000, 5000, 5000, 5000, 5000, 5000,
    // 0x4042
    12400,
    // 0x4043
    14000,
];

// Defaults of 0x3000 to 0x3029.
pub const INT16_DEFAULT: [i16; 42] = [
    // 0x3000 to 0x3002
    200, 200, 200,
    // 0x3003 to 0x3005
    600, 600, 600,
    // 0x3006 to 0x3008
    30, 30, 30,
    // 0x3009 to 0x300B
    50, 50, 50,
    // 0x300C
    0,
    // 0x300D, 0x300E
    1, 1,
    // 0x300F to 0x3017
    0, 0, 0, 0, 0, 0, 0, 0, 0,
    // 0x3018 to 0x3029
    1, 1, 1, 1, 1, 1, 1, 1, 1, 1, 1, 1, 1, 1, 1, 1, 1, 1,
];

// Defaults of 0x1000 to 0x1014.
pub const INT8_DEFAULT: [i8; 21] = [0; 21];

// Defaults of 0x2000 to 0x2002.
pub const UINT8_DEFAULT: [u8; 3] = [1, 0x12, 3];
