//! The category of a warning.

ghost use Rattle.std.specs.Prelude.{◌≡◌, ◌↔◌, ◌<◌, IsSome, IfSome};

/// How urgently the cells broadcast a content (TS 48.049, 8.2.7).
#[derive(Clone, Copy, Debug, PartialEq, Eq)]
pub enum Category {
    /// 0: broadcast as soon as possible.
    HighPriority,
    /// 1: broadcast when no content of another category is.
    Background,
    /// 2: broadcast within its repetition period.
    Normal,
}

impl Category {
    ghost use Rattle.warning_book.specs.Content.{category_number};

    /// The number as it stands in a message.
    pub fn to_u8(self) -> u8
        ensures { result ≡ category_number self }
    {
        match self {
            Category::HighPriority => 0,
            Category::Background => 1,
            Category::Normal => 2,
        }
    }

    /// The category of a number from 0 to 2; `None` for any other.
    pub fn of_number(number: u8) -> Option<Category>
        ensures known { IsSome result ↔ (number < 3) }
        ensures number { IfSome result (λ c. category_number c ≡ number) }
    {
        match number {
            0 => Some(Category::HighPriority),
            1 => Some(Category::Background),
            2 => Some(Category::Normal),
            _ => None,
        }
    }
}
