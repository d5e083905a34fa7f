//! What a request is answered.

ghost use Rattle.std.specs.Prelude.{◌≡◌};
ghost use Rattle.server_http.specs.Replies.{status_of};

use http::StatusCode;

/// What a request is answered.
#[derive(Clone, Copy, Debug, PartialEq, Eq)]
pub enum Reply {
    Page,
    Boards,
    Bscs,
    Metrics,
    /// The centre is whole.
    Whole,
    /// It isn't.
    NotWhole,
    /// No picture was taken for too long.
    NoNewPicture,
    /// No picture was taken yet.
    NoPicture,
    /// Nothing stands at that path.
    NotFound,
    /// The method is neither GET nor HEAD.
    NotAllowed,
}

impl Reply {
    pub(crate) fn status(self) -> StatusCode
        ensures { result ≡ status_of self }
    {
        match self {
            Reply::Page | Reply::Boards | Reply::Bscs | Reply::Metrics | Reply::Whole => {
                StatusCode::OK
            }
            Reply::NotWhole | Reply::NoNewPicture | Reply::NoPicture => {
                StatusCode::SERVICE_UNAVAILABLE
            }
            Reply::NotFound => StatusCode::NOT_FOUND,
            Reply::NotAllowed => StatusCode::METHOD_NOT_ALLOWED,
        }
    }
}
