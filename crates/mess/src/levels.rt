//! Reading levels: the MChunks of a level, and the levels behind it.
ghost use Rattle.std.specs.Prelude.{◌+◌};
ghost use Rattle.mess.specs.Filled.{Fitted, Room, LevelInto, LevelsInto, NextInto};

use crate::mchunk::MChunk;
use crate::mess::{Level, Mess};
use crate::rest::Rest;
use texts::table::{Rows, Span};

/// The MChunks of the level in front of a rest, joined by dots, into their table, and the rest behind them. A dot
/// without an MChunk behind it is not read.
fn mchunks<'a>(rest: Rest<'a>, chunks: &mut Rows<MChunk<Span>>) -> Option<Rest<'a>>
    requires room { Fitted rest.from chunks.old }
    ensures { LevelInto rest.entry chunks.old chunks.new result }
{
    let (first, mut end) = MChunk::parse(rest)?;
    chunks.push(first);
    while let Some(dotted) = end.strip(b'.') {
        let Some((further, behind)) = MChunk::parse(dotted) else {
            break;
        };
        chunks.push(further);
        end = behind;
    }
    Some(end)
}

/// The level in front of a rest and those behind it into the tables, and the rest behind them. This and `next` call
/// each other on ever shorter slices.
#[cycle(next_parse)]
pub(crate) fn parse<'a>(rest: Rest<'a>, mess: &mut Mess) -> Option<Rest<'a>>
    requires room { Room rest.from (rest.from + 1) mess.old }
    ensures { LevelsInto rest.entry mess.old mess.new result }
{
    let end = mchunks(rest, &mut mess.chunks)?;
    Some(next(end, mess))
}

/// The levels behind a sign in front of a rest into the tables, if there are any, and the rest behind them. A sign
/// without a level behind it is not read.
#[cycle(next_parse)]
fn next<'a>(rest: Rest<'a>, mess: &mut Mess) -> Rest<'a>
    requires room { Room (rest.from + 1) rest.from mess.old }
    ensures { NextInto rest.entry mess.old mess.new result }
{
    let Some((byte, behind)) = rest.split_first() else {
        return rest;
    };
    let Some(sep) = Mess::sep(byte) else {
        return rest;
    };
    let count = mess.levels.len();
    mess.levels.push(Level {
        sep,
        begin: mess.chunks.len() as u8,
    });
    match parse(behind, mess) {
        Some(end) => end,
        None => {
            // No level stands behind the sign: its entry is taken back.
            mess.levels.truncate(count);
            rest
        }
    }
}
