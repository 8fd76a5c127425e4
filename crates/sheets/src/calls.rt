//! One call on a file, made by a run of just this call, so that what a script does to a file is a journal of the rules.
ghost use Rattle.std.specs.Prelude.{◌≡◌, ◌≤◌, [], ◌∷◌, IfOk, vec_len, vec_capacity};
ghost use Rattle.journals.specs.Telling.{NeedsNoDraft};

use crate::stores::Sheet;
use journals::calls::{Call, Line};
use journals::runs::run;
use section::drafting::Draft;
use std::alloc::{AllocError, Global};

/// The line that answers a call, and the draft that is in hand then. For want of memory no call is made.
pub(crate) struct Asked<'a> {
    pub(crate) hand: Option<Draft>,
    pub(crate) line: Result<Line<'a>, AllocError>,
}

/// Makes a call on a file with the draft in hand.
pub(crate) fn ask<'a>(
    heap: Global,
    sheet: &mut Sheet,
    hand: Option<Draft>,
    call: Call<'a>,
) -> Asked<'a>
    ensures { NeedsNoDraft call.entry → result.hand ≡ hand }
{
    let (calls, mut lines) = match single(heap, call) {
        Ok(room) => room,
        Err(error) => {
            return Asked {
                hand,
                line: Err(error),
            };
        }
    };
    match run(sheet, hand, calls, &mut lines) {
        Ok(hand) => match lines.pop() {
            Some(line) => Asked {
                hand,
                line: Ok(line),
            },
            None => unreachable!(),
        },
        Err(_) => unreachable!(),
    }
}

/// Makes a call that needs no draft, with none in hand.
pub(crate) fn ask_alone<'a>(
    heap: Global,
    sheet: &mut Sheet,
    call: Call<'a>,
) -> Result<Line<'a>, AllocError>
    requires { NeedsNoDraft call }
{
    let Asked { hand, line } = ask(heap, sheet, None, call);
    match hand {
        None => line,
        Some(_) => unreachable!(),
    }
}

// A list of one call, and room for the line that answers it.
fn single<'a>(heap: Global, call: Call<'a>) -> Result<(Vec<Call<'a>>, Vec<Line<'a>>), AllocError>
    ensures calls { IfOk result (λ r. r.0.items ≡ call.entry ∷ []) }
    ensures lines { IfOk result (λ r. (vec_len r.1 ≡ 0) × (1 ≤ vec_capacity r.1)) }
{
    let mut calls = Vec::with_capacity(heap, 1)?;
    calls.push_reserved(call);
    Ok((calls, Vec::with_capacity(heap, 1)?))
}
