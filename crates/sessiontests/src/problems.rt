// Problems that tests search.

// Which natural is two? It has one unknown and one goal.
pub const TWO: [u8; 28] = [
    0x44, 0x54, 2, 0, 1, 1, // naturals: zero, and the successor of a natural
    0x55, 0x4B, 1, // the unknown is one
    0x47, 0x4C, 0, 13, 7, 1, 1, 0, 2, 1, 1, 2, 1, 1, 2, 1, 0, // and equals the successor of the successor of zero
    0x45, 0x4E,
];

// It declares nothing, and has no goal.
pub const EMPTY: [u8; 2] = [0x45, 0x4E];
