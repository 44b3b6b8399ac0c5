// The limits that several layers share: the library's, of every graph, book and load; and the desk's, of the sheet's counts and of the
// lists that the desk program and the host call load.
pub const MOST_VERTICES: usize = 65536;

pub const MOST_EDGES: usize = 1048576;

pub const MOST_ARCS: usize = 2097152;

// A weight, in whole millionths.
pub const MOST_WEIGHT: usize = 100000000000;

pub const DESK_VERTICES: usize = 1024;

pub const DESK_EDGES: usize = 2048;
