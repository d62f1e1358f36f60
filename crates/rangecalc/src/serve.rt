//! The whole program, over any reader and writers.

ghost use Rattle.std.specs.Prelude.{◌≡◌, ◌≤◌, ◌↔◌, ◌⊎◌, map, string_bytes};
ghost use Rattle.rangecalc.specs.Conversation.{AnswersLine, IsConversation, stored_in};
ghost use Rattle.line_program.specs.Serving.{IsServed, IsStopped, NamesKeys};
ghost use Rattle.rangecalc.specs.Serving.{IsAnswered};

use crate::maps::{Maps, answer_line, no_maps};
use crate::number::MapKey;
use line_program::program::LineProgram;
use line_program::read::LineRead;
use std::alloc::Global;
use std::io::{self, Write};

/// Four maps, which the lines name.
#[derive(Drop)]
struct MapsProgram<K: MapKey> {
    alloc: Global,
    maps: Maps<K>,
}

impl<K: MapKey, W: Write> LineProgram<W> for MapsProgram<K> {
    ghost answers = { λ old line text new.
        AnswersLine K.order line text (stored_in old.maps) (stored_in new.maps) };

    fn answer(&mut self, line: &str, out: &mut W) -> io::Result<()> {
        answer_line::<K, W>(self.alloc, &mut self.maps, line, out)
    }
}

fn serve_keys<K: MapKey, R: LineRead, W: Write, E: Write>(
    alloc: Global,
    input: &mut R,
    out: &mut W,
    err: &mut E,
) -> u8
    ensures status { result ≤ 1 }
    ensures silent { result ≡ 0 → err.new ≡ err.old }
    ensures answered { result ≡ 0
        → IsServed (IsConversation K.order) (R.remaining input.old) (W.contents out.old)
        (W.contents out.new) }
    ensures unread { result ≡ 1
        → (err.new ≡ err.old)
        ⊎ IsStopped (IsConversation K.order) R.fails (R.remaining input.old) (W.contents out.old)
        (W.contents out.new) }
{
    let mut program = MapsProgram::<K> {
        alloc,
        maps: no_maps(alloc),
    };
    line_program::program::serve(alloc, &mut program, input, out, err)
}

/// Serves lines over the keys that the words name, and returns the exit status.
///
/// `words` are the arguments without the program's name. One reply for each line goes to `out`,
/// which is flushed before the call ends; the usage line and `read error` go to `err`. The status
/// is 0 at the end of the input, and 1 where a line cannot be read or a reply cannot be written. It
/// is 2 where the words name no keys. A line that is no text in UTF-8 cannot be read.
pub fn serve<R: LineRead + Drop, W: Write, E: Write>(
    alloc: Global,
    words: &[String],
    mut input: R,
    out: &mut W,
    err: &mut E,
) -> u8
    ensures status { result ≤ 2 }
    ensures usage { result ≡ 2 ↔ ¬ (NamesKeys (map string_bytes words.now)) }
    ensures quiet { result ≡ 2 → out.new ≡ out.old }
    ensures silent { result ≡ 0 → err.new ≡ err.old }
    ensures unread { result ≡ 1
        → (err.new ≡ err.old)
        ⊎ IsStopped (IsAnswered (map string_bytes words.now)) R.fails (R.remaining input)
        (W.contents out.old) (W.contents out.new) }
    ensures served { result ≡ 0
        → IsServed (IsAnswered (map string_bytes words.now)) (R.remaining input)
        (W.contents out.old) (W.contents out.new) }
{
    if let [word] = words {
        match word.as_str() {
            "u8" => return serve_keys::<u8, R, W, E>(alloc, &mut input, out, err),
            "i32" => return serve_keys::<i32, R, W, E>(alloc, &mut input, out, err),
            _ => {}
        }
    }
    let _ = err.write_all(b"usage: rangecalc u8|i32\n");
    2
}
