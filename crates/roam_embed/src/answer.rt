//! What a call answers.

ghost use Rattle.std.specs.Prelude.{◌≡◌};
ghost use Rattle.roam_embed.specs.Answer.{number_of};

/// What a call answers: that it is done, or why it did nothing.
#[derive(Clone, Copy, Debug, PartialEq, Eq)]
pub enum Answer {
    /// The call did what it says.
    Done,
    /// Memory ran out.
    NoMemory,
    /// The number of heights is not that of a grid: (2^n + 1)^2 with n from 1 to 11.
    BadGrid,
    /// The budget is below 2, or above the greatest one.
    BadBudget,
    /// The spacing is 0, or above 1,024.
    BadSpacing,
    /// A coordinate of the camera is beyond 2^30.
    BadCamera,
    /// A slope of the plane is beyond 2^20, or its offset beyond 2^50.
    BadPlane,
    /// Six planes are in force, or more than six were given.
    TooManyPlanes,
    /// A point or an area is not in the grid, or the area is empty.
    OutsideGrid,
    /// The height is above the grid's bound, or the change of heights beyond 65,535.
    BadChange,
    /// The engine has made its frames, or its camera has gone its way.
    Worn,
    /// The caller's array has too few places.
    NoRoom,
    /// The handle has none of what it is to own.
    IsEmpty,
    /// A tolerance is above 65,535.999 units of height, or there is not one for each height.
    BadTolerance,
    /// The addresses are not those of a conforming mesh of the grid, depth first.
    BadMesh,
    /// The tile had a border point that is not among these.
    Shrunk,
    /// The page has no place in the world, or one that is to go is the coarsest, or a finer one needs it.
    BadPage,
    /// No page of this resolution is loaded there.
    NotThere,
}

impl Answer {
    /// The number of the answer, by which C knows it.
    pub fn number(self) -> i32
        ensures { result ≡ number_of self }
    {
        match self {
            Answer::Done => 0,
            Answer::NoMemory => 1,
            Answer::BadGrid => 2,
            Answer::BadBudget => 3,
            Answer::BadSpacing => 4,
            Answer::BadCamera => 5,
            Answer::BadPlane => 6,
            Answer::TooManyPlanes => 7,
            Answer::OutsideGrid => 8,
            Answer::BadChange => 9,
            Answer::Worn => 10,
            Answer::NoRoom => 11,
            Answer::IsEmpty => 12,
            Answer::BadTolerance => 13,
            Answer::BadMesh => 14,
            Answer::Shrunk => 15,
            Answer::BadPage => 16,
            Answer::NotThere => 17,
        }
    }
}
