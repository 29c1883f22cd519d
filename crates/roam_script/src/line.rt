//! A line of a script.

/// What a line of a script says.
#[derive(Clone, Copy, Debug, PartialEq, Eq)]
pub enum Line {
    /// Nothing: the line has no field, or is a comment.
    Blank,
    /// The camera is put to a point.
    Camera {
        /// To the right, in world units: grid steps times the spacing.
        x: i64,
        /// Up the grid, in world units.
        y: i64,
        /// The height, in units of height.
        z: i64,
    },
    /// The height of a grid point is replaced.
    Set {
        /// The column, from the left.
        x: u32,
        /// The row, from the bottom.
        y: u32,
        /// The height, in units of height.
        h: u16,
    },
    /// The next frame is made.
    Frame,
    /// One view plane more is in force. Its inside is where a x + b y + c z + d is at least 0.
    Plane {
        /// The slope along x.
        a: i64,
        /// The slope along y.
        b: i64,
        /// The slope along z.
        c: i64,
        /// The offset.
        d: i64,
    },
    /// No plane is in force.
    NoPlanes,
    /// The budget in force is replaced.
    Budget {
        /// The greatest number of triangles of a mesh.
        n: u32,
    },
    /// All heights of an area are raised, and brought into 0 to the maxval.
    Raise {
        /// The first column.
        x0: u32,
        /// The first row.
        y0: u32,
        /// The last column.
        x1: u32,
        /// The last row.
        y1: u32,
        /// By so many units of height; below 0 the area sinks.
        dz: i32,
    },
}
