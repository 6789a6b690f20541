//! The reply to a line.
ghost use Rattle.std.specs.Prelude.{◌≡◌, Some, None, length, MatchResult};
ghost use Rattle.protocol.specs.Commands.{found};
ghost use Rattle.written.specs.Written.{Adds};
ghost use Rattle.replies.specs.Written.{line_of};
ghost use Rattle.replies.specs.Replies.{answered, text_within, reply, reply_to, passed_over};

use crate::writing::write_answer;
use lines::hex::unhex;
use lines::line::is_comment;
use protocol::answer::{Answer, Refusal};
use protocol::answering::{answer_compare, answer_new, answer_parse};
use protocol::asked::{BadCommand, Command};
use protocol::reading::command;
use std::alloc::AllocError;

/// The room for the texts of a command: for two, where it compares.
#[derive(Drop)]
pub struct Rooms<'a> {
    pub one: &'a mut [u8],
    pub other: &'a mut [u8],
}

// The text that a field writes, put into the room for it. A field that writes none, or too long a text, is no command.
fn text_in<'a>(hex: &[u8], room: &'a mut [u8]) -> Result<&'a [u8], BadCommand>
    ensures { MatchResult result (λ text. text_within (length room.old) hex.now ≡ Some text.now) (λ _. text_within (length room.old) hex.now ≡ None) }
{
    let count = unhex(hex, room).ok_or(BadCommand)?;
    Ok(&room[..count])
}

// What a command is answered, with the text in which its parts are.
fn answer<'a>(
    asked: Result<Command<'_>, BadCommand>,
    rooms: Rooms<'a>,
) -> Result<(&'a [u8], Answer), Refusal>
    ensures { line_of (answered result) ≡ reply (length rooms.entry.one.now) (length rooms.entry.other.now) (found asked.entry) }
{
    let Rooms { one, other } = rooms;
    match asked? {
        Command::New(form, hex) => {
            let text = text_in(hex, one)?;
            Ok((text, answer_new(form, text)?))
        }
        Command::Parse(form, hex) => {
            let text = text_in(hex, one)?;
            Ok((text, answer_parse(form, text)?))
        }
        Command::Compare(form, first, second) => {
            let s = text_in(first, one)?;
            let t = text_in(second, other)?;
            Ok((s, answer_compare(form, s, t)?))
        }
    }
}

/// Adds the reply to a line.
pub fn reply(out: &mut Vec<u8>, line: &[u8], rooms: Rooms<'_>) -> Result<(), AllocError>
    ensures { Adds result out.old.items out.new.items (reply_to (length rooms.entry.one.now) (length rooms.entry.other.now) line.now) }
{
    match command(line) {
        Some(asked) => write_answer(out, &answer(asked, rooms)),
        None => Ok(()),
    }
}

/// Adds the reply to a line that is too long to be kept, by its first bytes.
pub fn pass_over(out: &mut Vec<u8>, front: &[u8]) -> Result<(), AllocError>
    ensures { Adds result out.old.items out.new.items (passed_over front.now) }
{
    if is_comment(front) {
        Ok(())
    } else {
        write_answer(out, &Err(Refusal::Bad))
    }
}
