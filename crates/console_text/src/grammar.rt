//! The lines that an operator may write.

ghost use Rattle.std.specs.Prelude.{◌≡◌, [], ◌∷◌, IfOk};
ghost use Rattle.console_text.specs.Grammar.{bsc_of, two_octets_of, warning_of, link_generation_of, cell_of, scope_of, category_of, names_of, add_cell, move_cell, keep, ask, ask_after, content_heading_of, heading_of, emergency_heading_of, alert_heading_of, issue, update, alert, realert, line_of};

use crate::alert_heading::AlertHeading;
use crate::content_heading::ContentHeading;
use crate::emergency_heading::EmergencyHeading;
use crate::heading::Heading;
use crate::line::Line;
use crate::numbers::read_number_in;
use crate::parts::split_parts;
use crate::word::Word;
use crate::words::is_word;
use areas::Selector;
use cell_register::BscId;
use common::{Cell, Name, Names, Octets};
use serials::Scope;
use std::alloc::{AllocError, Global};
use warning_book::{Category, WarningId};

/// The line of the words; `None` where there is no such line, or a number isn't one or is out of its range.
pub fn read_line(alloc: Global, words: &[Word<'_>]) -> Result<Option<Line>, AllocError>
    ensures { IfOk result (λ line. line ≡ line_of words.now) }
{
    match words {
        [verb] => Ok(read_one(verb.as_slice())),
        [verb, x] => Ok(read_two(verb.as_slice(), x.as_slice())),
        [verb, x, y] => read_three(alloc, verb.as_slice(), x.as_slice(), y.as_slice()),
        [verb, x, y, z] => read_four(
            alloc,
            verb.as_slice(),
            x.as_slice(),
            y.as_slice(),
            z.as_slice(),
        ),
        [verb, x, y, z, t] => read_five(
            alloc,
            verb.as_slice(),
            x.as_slice(),
            y.as_slice(),
            z.as_slice(),
            t.as_slice(),
        ),
        [verb, warning, x, y, z, text] => read_six(alloc, verb, warning, x, y, z, text),
        [verb, message_id, scope, x, y, z, text, areas] => {
            read_eight(alloc, verb, message_id, scope, x, y, z, text, areas)
        }
        _ => Ok(None),
    }
}

/// B, a number from 1.
pub fn read_bsc(word: &[u8]) -> Option<BscId>
    ensures { result ≡ bsc_of word.now }
{
    let number = read_number_in(word, 1, 65535)?;
    BscId::new(number as u16)
}

/// L, C, M and PERIOD, a number of two octets.
pub fn read_two_octets(word: &[u8]) -> Option<u16>
    ensures { result ≡ two_octets_of word.now }
{
    let number = read_number_in(word, 0, 65535)?;
    Some(number as u16)
}

/// W, a number of four octets.
pub fn read_warning(word: &[u8]) -> Option<WarningId>
    ensures { result ≡ warning_of word.now }
{
    let number = read_number_in(word, 0, 4294967295)?;
    Some(WarningId::new(number as u32))
}

/// G, a number of four octets.
fn read_generation(word: &[u8]) -> Option<u64>
    ensures { result ≡ link_generation_of word.now }
{
    read_number_in(word, 0, 4294967295)
}

/// L and C.
pub fn read_cell(lac: &[u8], ci: &[u8]) -> Option<Cell>
    ensures { result ≡ cell_of lac.now ci.now }
{
    Some(Cell {
        lac: read_two_octets(lac)?,
        ci: read_two_octets(ci)?,
    })
}

/// SCOPE, 0 to 3.
pub fn read_scope(word: &[u8]) -> Option<Scope>
    ensures { result ≡ scope_of word.now }
{
    let number = read_number_in(word, 0, 3)?;
    Scope::from_number(number as u16)
}

/// CAT, 0 high priority, 1 background, 2 normal.
pub fn read_category(word: &[u8]) -> Option<Category>
    ensures { result ≡ category_of word.now }
{
    let number = read_number_in(word, 0, 255)?;
    Category::of_number(number as u8)
}

/// AREAS, names joined by `,`, or `-` for none.
pub fn read_names(alloc: Global, word: &[u8]) -> Result<Names, AllocError>
    ensures { IfOk result (λ names. names ≡ names_of word.now) }
{
    let mut names = Vec::new(alloc);
    if is_word(word, b"-") {
        return Ok(Names::from_vec(names));
    }
    let parts = split_parts(alloc, word, b',')?;
    for part in parts {
        names.push(read_name(alloc, part.as_slice())?)?;
    }
    Ok(Names::from_vec(names))
}

fn read_name(alloc: Global, word: &[u8]) -> Result<Name, AllocError>
    ensures { IfOk result (λ name. name ≡ word.now) }
{
    Ok(Name::from_vec(Vec::from_slice(alloc, word)?))
}

/// Pages, security information or a frame, whose octets are read later.
fn read_text(alloc: Global, word: &[u8]) -> Result<Octets, AllocError>
    ensures { IfOk result (λ text. text ≡ word.now) }
{
    Ok(Octets::from_vec(Vec::from_slice(alloc, word)?))
}

/// `rebuild`, `checkpoint`
fn read_one(verb: &[u8]) -> Option<Line>
    ensures { result ≡ line_of (verb.now ∷ []) }
{
    if is_word(verb, b"rebuild") {
        Some(Line::Rebuild)
    } else if is_word(verb, b"checkpoint") {
        Some(Line::Checkpoint)
    } else {
        None
    }
}

/// `retry B`, `up B`, `down B`, `send B`, `stop W`, `forget W`, `board W`, `pending B`, `table B`
fn read_two(verb: &[u8], x: &[u8]) -> Option<Line>
    ensures { result ≡ line_of (verb.now ∷ x.now ∷ []) }
{
    if is_word(verb, b"retry") {
        Some(Line::Retry(read_bsc(x)?))
    } else if is_word(verb, b"up") {
        Some(Line::Up(read_bsc(x)?))
    } else if is_word(verb, b"down") {
        Some(Line::Down(read_bsc(x)?))
    } else if is_word(verb, b"send") {
        Some(Line::Send(read_bsc(x)?))
    } else if is_word(verb, b"stop") {
        Some(Line::Stop(read_warning(x)?))
    } else if is_word(verb, b"forget") {
        Some(Line::Forget(read_warning(x)?))
    } else if is_word(verb, b"board") {
        Some(Line::Board(read_warning(x)?))
    } else if is_word(verb, b"pending") {
        Some(Line::Pending(read_bsc(x)?))
    } else if is_word(verb, b"table") {
        Some(Line::Table(read_bsc(x)?))
    } else {
        None
    }
}

/// `bsc add B`, `bsc remove B`, `area add N`, `area drop N`, `widen W N`, `narrow W N`, `gen B G`, `rx B HEX`, `ask B W`,
/// `board W N`
fn read_three(alloc: Global, verb: &[u8], x: &[u8], y: &[u8]) -> Result<Option<Line>, AllocError>
    ensures { IfOk result (λ line. line ≡ line_of (verb.now ∷ x.now ∷ y.now ∷ [])) }
{
    if is_word(verb, b"bsc") && is_word(x, b"add") {
        Ok(read_bsc(y).map(Line::AddBsc))
    } else if is_word(verb, b"bsc") && is_word(x, b"remove") {
        Ok(read_bsc(y).map(Line::RemoveBsc))
    } else if is_word(verb, b"area") && is_word(x, b"add") {
        Ok(Some(Line::AddArea(read_name(alloc, y)?)))
    } else if is_word(verb, b"area") && is_word(x, b"drop") {
        Ok(Some(Line::DropArea(read_name(alloc, y)?)))
    } else if is_word(verb, b"widen") {
        match read_warning(x) {
            Some(warning) => Ok(Some(Line::Widen(warning, read_name(alloc, y)?))),
            None => Ok(None),
        }
    } else if is_word(verb, b"narrow") {
        match read_warning(x) {
            Some(warning) => Ok(Some(Line::Narrow(warning, read_name(alloc, y)?))),
            None => Ok(None),
        }
    } else if is_word(verb, b"gen") {
        Ok(read_keep(x, y))
    } else if is_word(verb, b"rx") {
        match read_bsc(x) {
            Some(bsc) => Ok(Some(Line::Report(bsc, read_text(alloc, y)?))),
            None => Ok(None),
        }
    } else if is_word(verb, b"ask") {
        Ok(read_ask(x, y, None))
    } else if is_word(verb, b"board") {
        match read_warning(x) {
            Some(warning) => Ok(Some(Line::AreaBoard(warning, read_name(alloc, y)?))),
            None => Ok(None),
        }
    } else {
        Ok(None)
    }
}

fn read_keep(bsc: &[u8], generation: &[u8]) -> Option<Line>
    ensures { result ≡ keep bsc.now generation.now }
{
    let bsc = read_bsc(bsc)?;
    Some(Line::Keep(bsc, read_generation(generation)?))
}

fn read_ask(bsc: &[u8], warning: &[u8], after: Option<Cell>) -> Option<Line>
    ensures { result ≡ ask bsc.now warning.now after }
{
    let bsc = read_bsc(bsc)?;
    Some(Line::Ask(bsc, read_warning(warning)?, after))
}

fn read_ask_after(bsc: &[u8], warning: &[u8], lac: &[u8], ci: &[u8]) -> Option<Line>
    ensures { result ≡ ask_after bsc.now warning.now lac.now ci.now }
{
    let after = read_cell(lac, ci)?;
    read_ask(bsc, warning, Some(after))
}

/// `cell remove L C`, `area put N L`, `area cut N L`
fn read_four(
    alloc: Global,
    verb: &[u8],
    x: &[u8],
    y: &[u8],
    z: &[u8],
) -> Result<Option<Line>, AllocError>
    ensures { IfOk result (λ line. line ≡ line_of (verb.now ∷ x.now ∷ y.now ∷ z.now ∷ [])) }
{
    if is_word(verb, b"cell") && is_word(x, b"remove") {
        Ok(read_cell(y, z).map(Line::RemoveCell))
    } else if is_word(verb, b"area") && is_word(x, b"put") {
        match read_two_octets(z) {
            Some(lac) => Ok(Some(Line::Put(read_name(alloc, y)?, Selector::Lac(lac)))),
            None => Ok(None),
        }
    } else if is_word(verb, b"area") && is_word(x, b"cut") {
        match read_two_octets(z) {
            Some(lac) => Ok(Some(Line::Cut(read_name(alloc, y)?, Selector::Lac(lac)))),
            None => Ok(None),
        }
    } else {
        Ok(None)
    }
}

/// `cell add L C B`, `cell move L C B`, `area put N L C`, `area cut N L C`, `ask B W L C`
fn read_five(
    alloc: Global,
    verb: &[u8],
    x: &[u8],
    y: &[u8],
    z: &[u8],
    t: &[u8],
) -> Result<Option<Line>, AllocError>
    ensures { IfOk result (λ line. line ≡ line_of (verb.now ∷ x.now ∷ y.now ∷ z.now ∷ t.now ∷ [])) }
{
    if is_word(verb, b"cell") && is_word(x, b"add") {
        Ok(read_added_cell(y, z, t))
    } else if is_word(verb, b"cell") && is_word(x, b"move") {
        Ok(read_moved_cell(y, z, t))
    } else if is_word(verb, b"area") && is_word(x, b"put") {
        match read_cell(z, t) {
            Some(cell) => Ok(Some(Line::Put(read_name(alloc, y)?, Selector::Cell(cell)))),
            None => Ok(None),
        }
    } else if is_word(verb, b"area") && is_word(x, b"cut") {
        match read_cell(z, t) {
            Some(cell) => Ok(Some(Line::Cut(read_name(alloc, y)?, Selector::Cell(cell)))),
            None => Ok(None),
        }
    } else if is_word(verb, b"ask") {
        Ok(read_ask_after(x, y, z, t))
    } else {
        Ok(None)
    }
}

fn read_added_cell(lac: &[u8], ci: &[u8], bsc: &[u8]) -> Option<Line>
    ensures { result ≡ add_cell lac.now ci.now bsc.now }
{
    let cell = read_cell(lac, ci)?;
    Some(Line::AddCell(cell, read_bsc(bsc)?))
}

fn read_moved_cell(lac: &[u8], ci: &[u8], bsc: &[u8]) -> Option<Line>
    ensures { result ≡ move_cell lac.now ci.now bsc.now }
{
    let cell = read_cell(lac, ci)?;
    Some(Line::MoveCell(cell, read_bsc(bsc)?))
}

fn read_content_heading(
    dcs: &Word<'_>,
    category: &Word<'_>,
    period: &Word<'_>,
) -> Option<ContentHeading>
    ensures { result ≡ content_heading_of dcs.now category.now period.now }
{
    Some(ContentHeading {
        dcs: read_number_in(dcs.as_slice(), 0, 255)? as u8,
        category: read_category(category.as_slice())?,
        period: read_two_octets(period.as_slice())?,
    })
}

fn read_heading(
    message_id: &Word<'_>,
    scope: &Word<'_>,
    dcs: &Word<'_>,
    category: &Word<'_>,
    period: &Word<'_>,
) -> Option<Heading>
    ensures { result ≡ heading_of message_id.now scope.now dcs.now category.now period.now }
{
    Some(Heading {
        message_id: read_two_octets(message_id.as_slice())?,
        scope: read_scope(scope.as_slice())?,
        content: read_content_heading(dcs, category, period)?,
    })
}

/// `update W DCS CAT PERIOD PAGES`
fn read_update(
    alloc: Global,
    warning: &Word<'_>,
    dcs: &Word<'_>,
    category: &Word<'_>,
    period: &Word<'_>,
    pages: &Word<'_>,
) -> Result<Option<Line>, AllocError>
    ensures { IfOk result (λ line. line ≡ update warning.now dcs.now category.now period.now pages.now) }
{
    let Some(warning) = read_warning(warning.as_slice()) else {
        return Ok(None);
    };
    let Some(heading) = read_content_heading(dcs, category, period) else {
        return Ok(None);
    };
    Ok(Some(Line::Update {
        warning,
        heading,
        pages: read_text(alloc, pages.as_slice())?,
    }))
}

fn read_emergency_heading(
    indicator: &Word<'_>,
    warning_type: &Word<'_>,
    warning_period: &Word<'_>,
) -> Option<EmergencyHeading>
    ensures { result ≡ emergency_heading_of indicator.now warning_type.now warning_period.now }
{
    Some(EmergencyHeading {
        indicator: read_number_in(indicator.as_slice(), 0, 255)? as u8,
        warning_type: read_two_octets(warning_type.as_slice())?,
        warning_period: read_number_in(warning_period.as_slice(), 0, 255)? as u8,
    })
}

/// `realert W I T P SEC`
fn read_realert(
    alloc: Global,
    warning: &Word<'_>,
    indicator: &Word<'_>,
    warning_type: &Word<'_>,
    warning_period: &Word<'_>,
    security: &Word<'_>,
) -> Result<Option<Line>, AllocError>
    ensures { IfOk result (λ line. line ≡ realert warning.now indicator.now warning_type.now warning_period.now security.now) }
{
    let Some(warning) = read_warning(warning.as_slice()) else {
        return Ok(None);
    };
    let Some(heading) = read_emergency_heading(indicator, warning_type, warning_period) else {
        return Ok(None);
    };
    Ok(Some(Line::Realert {
        warning,
        heading,
        security: read_text(alloc, security.as_slice())?,
    }))
}

/// `update W DCS CAT PERIOD PAGES`, `realert W I T P SEC`
fn read_six(
    alloc: Global,
    verb: &Word<'_>,
    warning: &Word<'_>,
    x: &Word<'_>,
    y: &Word<'_>,
    z: &Word<'_>,
    text: &Word<'_>,
) -> Result<Option<Line>, AllocError>
    ensures { IfOk result (λ line. line ≡ line_of (verb.now ∷ warning.now ∷ x.now ∷ y.now ∷ z.now ∷ text.now ∷ [])) }
{
    if is_word(verb.as_slice(), b"update") {
        read_update(alloc, warning, x, y, z, text)
    } else if is_word(verb.as_slice(), b"realert") {
        read_realert(alloc, warning, x, y, z, text)
    } else {
        Ok(None)
    }
}

/// `issue M SCOPE DCS CAT PERIOD PAGES AREAS`
fn read_issue(
    alloc: Global,
    message_id: &Word<'_>,
    scope: &Word<'_>,
    dcs: &Word<'_>,
    category: &Word<'_>,
    period: &Word<'_>,
    pages: &Word<'_>,
    areas: &Word<'_>,
) -> Result<Option<Line>, AllocError>
    ensures { IfOk result (λ line. line ≡ issue message_id.now scope.now dcs.now category.now period.now pages.now areas.now) }
{
    let Some(heading) = read_heading(message_id, scope, dcs, category, period) else {
        return Ok(None);
    };
    Ok(Some(Line::Issue {
        heading,
        pages: read_text(alloc, pages.as_slice())?,
        areas: read_names(alloc, areas.as_slice())?,
    }))
}

fn read_alert_heading(
    message_id: &Word<'_>,
    scope: &Word<'_>,
    indicator: &Word<'_>,
    warning_type: &Word<'_>,
    warning_period: &Word<'_>,
) -> Option<AlertHeading>
    ensures { result ≡ alert_heading_of message_id.now scope.now indicator.now warning_type.now warning_period.now }
{
    Some(AlertHeading {
        message_id: read_two_octets(message_id.as_slice())?,
        scope: read_scope(scope.as_slice())?,
        content: read_emergency_heading(indicator, warning_type, warning_period)?,
    })
}

/// `alert M SCOPE I T P SEC AREAS`
fn read_alert(
    alloc: Global,
    message_id: &Word<'_>,
    scope: &Word<'_>,
    indicator: &Word<'_>,
    warning_type: &Word<'_>,
    warning_period: &Word<'_>,
    security: &Word<'_>,
    areas: &Word<'_>,
) -> Result<Option<Line>, AllocError>
    ensures { IfOk result (λ line. line ≡ alert message_id.now scope.now indicator.now warning_type.now warning_period.now security.now areas.now) }
{
    let heading = read_alert_heading(message_id, scope, indicator, warning_type, warning_period);
    let Some(heading) = heading else {
        return Ok(None);
    };
    Ok(Some(Line::Alert {
        heading,
        security: read_text(alloc, security.as_slice())?,
        areas: read_names(alloc, areas.as_slice())?,
    }))
}

/// `issue M SCOPE DCS CAT PERIOD PAGES AREAS`, `alert M SCOPE I T P SEC AREAS`
fn read_eight(
    alloc: Global,
    verb: &Word<'_>,
    message_id: &Word<'_>,
    scope: &Word<'_>,
    x: &Word<'_>,
    y: &Word<'_>,
    z: &Word<'_>,
    text: &Word<'_>,
    areas: &Word<'_>,
) -> Result<Option<Line>, AllocError>
    ensures { IfOk result (λ line. line ≡ line_of (verb.now ∷ message_id.now ∷ scope.now ∷ x.now ∷ y.now ∷ z.now ∷ text.now ∷ areas.now ∷ [])) }
{
    if is_word(verb.as_slice(), b"issue") {
        read_issue(alloc, message_id, scope, x, y, z, text, areas)
    } else if is_word(verb.as_slice(), b"alert") {
        read_alert(alloc, message_id, scope, x, y, z, text, areas)
    } else {
        Ok(None)
    }
}
