//! The whole table. Each part is put after the lines that are there.
ghost use Rattle.std.specs.Prelude.{◌≡◌, ◌++◌, IfOk, OnOk};
ghost use Rattle.session.specs.Views.{view_of};
ghost use Rattle.inquire.specs.Entries.{entries_in};
ghost use Rattle.inquire.specs.Table.{positions, trades, standings, totals, table};

use crate::line::Line;
use session::session::Session;
use std::alloc::{AllocError, Global};

/// The position of each group at a quarter hour.
fn push_positions(lines: &mut Vec<Line>, session: &Session, quarter: u16) -> Result<(), AllocError>
    ensures { OnOk result (entries_in lines.new ≡ entries_in lines.old ++ positions (view_of session.now) quarter) }
{
    lines.extend((1..=session.groups()).map(|group| Line::Position {
        quarter,
        group,
        answer: session.position(group, quarter),
    }))
}

/// The trades at a quarter hour, from each group to each other.
fn push_trades(lines: &mut Vec<Line>, session: &Session, quarter: u16) -> Result<(), AllocError>
    ensures { OnOk result (entries_in lines.new ≡ entries_in lines.old ++ trades (view_of session.now) quarter) }
{
    let groups = session.groups();
    lines.extend((1..=groups).flat_map(|from| {
        (1..=groups)
            .filter(move |to| *to != from)
            .map(move |to| Line::Trade {
                quarter,
                from,
                to,
                answer: session.trade(from, to, quarter),
            })
    }))
}

/// The standing of each group on each day past its cut-off.
fn push_standings(lines: &mut Vec<Line>, session: &Session) -> Result<(), AllocError>
    ensures { OnOk result (entries_in lines.new ≡ entries_in lines.old ++ standings (view_of session.now)) }
{
    let groups = session.groups();
    lines.extend((1..=session.cut_offs()).flat_map(|day| {
        (1..=groups).map(move |group| Line::Standing {
            day,
            group,
            answer: session.standing(group, day),
        })
    }))
}

/// The total of each group.
fn push_totals(lines: &mut Vec<Line>, session: &Session) -> Result<(), AllocError>
    ensures { OnOk result (entries_in lines.new ≡ entries_in lines.old ++ totals (view_of session.now)) }
{
    lines.extend((1..=session.groups()).map(|group| Line::Total {
        group,
        answer: session.total(group),
    }))
}

/// What the session's book answers: a part for each of the quarter hours, in their order, then the
/// standings, then the totals. Without a book there is nothing.
pub fn table(heap: Global, session: &Session, quarters: &[u16]) -> Result<Vec<Line>, AllocError>
    ensures { IfOk result (λ v. entries_in v ≡ table (view_of session.now) quarters.now) }
{
    // Made for all its lines at once: a list that grows asks for up to twice the room.
    let groups = usize::from(session.groups());
    let parts = quarters
        .len()
        .saturating_mul(groups)
        .saturating_add(usize::from(session.cut_offs()) + 1);
    let mut lines = Vec::with_capacity(heap, groups.saturating_mul(parts))?;
    for quarter in quarters {
        push_positions(&mut lines, session, *quarter)?;
        push_trades(&mut lines, session, *quarter)?;
    }
    push_standings(&mut lines, session)?;
    push_totals(&mut lines, session)?;
    Ok(lines)
}
