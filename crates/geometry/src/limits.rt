// The limits of lists of rectangles, which specs/Limits.antt names, and the room of a working list.

// 'A polygon is a list of 1 to 16 rectangles'.
pub const MOST_OF_POLYGON: usize = 16;

// 'a list over 256 after a single cut'; 'pieces over 256 after a cut by one rectangle or after the common parts'.
pub const MOST_PIECES: usize = 256;

// The numbers of a working list, 272 rectangles: the 271 that insertion refines fit, and 256 pieces with the 16 common
// parts of one more.
pub const WORK_NUMBERS: usize = 1088;
