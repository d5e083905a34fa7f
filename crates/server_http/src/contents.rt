//! What is shown of one picture.

ghost use Rattle.std.specs.Prelude.{◌≡◌, IfOk};
ghost use Rattle.server_http.specs.Replies.{IsContentsOf};
ghost use Rattle.status_figures.specs.Metrics.{metrics_text};
ghost use Rattle.status_figures.specs.Tables.{boards_csv, bscs_csv};
ghost use Rattle.status_pages.specs.Pages.{page_html};

use bytes::Bytes;
use status_figures::{Health, Picture, boards_csv, bscs_csv, health_of, metrics};
use status_pages::page;
use std::alloc::{AllocError, Global};

/// What is shown of one picture, in text that all answers share.
#[derive(Drop)]
pub struct Contents {
    /// When the picture was taken, in seconds after 1970-01-01T00:00:00Z.
    pub taken: u64,
    pub health: Health,
    pub page: Bytes,
    pub boards: Bytes,
    pub bscs: Bytes,
    pub metrics: Bytes,
}

/// The text, which answers can share.
fn shared(text: Vec<u8>) -> Result<Bytes, AllocError>
    ensures { IfOk result (λ shared. shared ≡ text.items) }
{
    match Bytes::from_vec(text) {
        Ok(shared) => Ok(shared),
        Err(_) => Err(AllocError),
    }
}

fn shared_page(alloc: Global, picture: &Picture) -> Result<Bytes, AllocError>
    ensures { IfOk result (λ text. text ≡ page_html picture.now) }
{
    shared(page(alloc, picture)?)
}

fn shared_boards(alloc: Global, picture: &Picture) -> Result<Bytes, AllocError>
    ensures { IfOk result (λ text. text ≡ boards_csv picture.now) }
{
    shared(boards_csv(alloc, picture)?)
}

fn shared_bscs(alloc: Global, picture: &Picture) -> Result<Bytes, AllocError>
    ensures { IfOk result (λ text. text ≡ bscs_csv picture.now) }
{
    shared(bscs_csv(alloc, picture)?)
}

fn shared_metrics(alloc: Global, picture: &Picture) -> Result<Bytes, AllocError>
    ensures { IfOk result (λ text. text ≡ metrics_text picture.now) }
{
    shared(metrics(alloc, picture)?)
}

impl Contents {
    /// What is shown of the picture. At an `Err` there was no memory for it.
    pub fn of(alloc: Global, picture: &Picture) -> Result<Contents, AllocError>
        ensures { IfOk result (IsContentsOf picture.now) }
    {
        let page = shared_page(alloc, picture)?;
        let boards = shared_boards(alloc, picture)?;
        let bscs = shared_bscs(alloc, picture)?;
        let metrics = shared_metrics(alloc, picture)?;
        Ok(Contents {
            taken: picture.taken,
            health: health_of(picture),
            page,
            boards,
            bscs,
            metrics,
        })
    }
}
