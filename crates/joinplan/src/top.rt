ghost use Rattle.std.specs.Prelude.{◌≡◌, ◌≢◌, ◌≤◌, ◌↔◌, IfSome, None, map, string_bytes};
ghost use Rattle.jp_io.specs.Files.{NoneFalls, StaysSound};
ghost use Rattle.jp_io.specs.Sinks.{Rose};
ghost use Rattle.joinplan.specs.Headline.{IsAnswerTo, IsListedAnswer, IsOrderedAnswer, PrintsSuch};
ghost use Rattle.joinplan.specs.Outcomes.{ComesExactly, FaultIn, IsComplete, IsReported, IsSurelyServed, RoomServes, WroteAll, WrotePart, answer_told};
ghost use Rattle.joinplan.specs.Words.{command_of};

use crate::answer::answer;
use crate::refusal::Refusal;
use jp_io::{Files, Sink, SinkError, write_all};
use jp_lex::each_source_is_cut_as_answered;
use std::alloc::Global;

/// Runs the command that the words after the program's name give, and answers the exit status. The output goes
/// to `out`, and of a refusal one line to `err`.
pub fn joinplan<F: Files, O: Sink, E: Sink>(
    alloc: Global,
    words: &[String],
    files: &mut F,
    out: &mut O,
    err: &mut E,
) -> u8
    // The status, by its cause.
    ensures range { result ≤ 8 }
    ensures usage { (result ≡ 1) ↔ (command_of (map string_bytes words.now) ≡ None) }
    ensures catalogue { ComesExactly 2 (answer_told (map string_bytes words.now) (F.contents files.old)) result (F.faults files.old) (F.faults files.new) }
    ensures table { ComesExactly 3 (answer_told (map string_bytes words.now) (F.contents files.old)) result (F.faults files.old) (F.faults files.new) }
    ensures statement { ComesExactly 4 (answer_told (map string_bytes words.now) (F.contents files.old)) result (F.faults files.old) (F.faults files.new) }
    ensures limit { ComesExactly 5 (answer_told (map string_bytes words.now) (F.contents files.old)) result (F.faults files.old) (F.faults files.new) }
    ensures read_fault { result ≡ 6 → FaultIn (answer_told (map string_bytes words.now) (F.contents files.old)) (command_of (map string_bytes words.now)) (F.faults files.old) (F.faults files.new) }
    ensures write_fault { result ≡ 7 → Rose (O.faults out.old) (O.faults out.new) }
    ensures complete { IfSome (answer_told (map string_bytes words.now) (F.contents files.old)) (λ answer. IsComplete answer result (F.faults files.old) (F.faults files.new) (O.faults out.old) (O.faults out.new) (O.taken out.old) (O.taken out.new)) }
    ensures surely { IfSome (answer_told (map string_bytes words.now) (F.contents files.old)) (λ answer. IsSurelyServed (F.is_sound files.old) (F.faults files.old) (O.room out.old) answer result (O.taken out.old) (O.taken out.new)) }

    // What the sinks took: of a status 0, where the contents of the files are told, the statement's meaning, in its order, as its
    // plan lists it.
    ensures headline { result ≡ 0 → PrintsSuch IsAnswerTo (F.contents files.old) (map string_bytes words.now) (O.taken out.old) (O.taken out.new) }
    ensures order { result ≡ 0 → PrintsSuch IsOrderedAnswer (F.contents files.old) (map string_bytes words.now) (O.taken out.old) (O.taken out.new) }
    ensures plan { result ≡ 0 → PrintsSuch IsListedAnswer (F.contents files.old) (map string_bytes words.now) (O.taken out.old) (O.taken out.new) }
    ensures printed { result ≡ 0 → WroteAll (answer_told (map string_bytes words.now) (F.contents files.old)) (O.taken out.old) (O.taken out.new) }
    ensures prefix { result ≡ 7 → WrotePart (answer_told (map string_bytes words.now) (F.contents files.old)) (O.taken out.old) (O.taken out.new) }
    ensures untouched { result ≢ 0 → result ≢ 7 → out.new ≡ out.old }
    ensures silent { result ≡ 0 → err.new ≡ err.old }
    ensures line { result ≢ 0 → IsReported (answer_told (map string_bytes words.now) (F.contents files.old)) result (E.taken err.old) (E.taken err.new)
        (record { sink_before = E.faults err.old; sink_now = E.faults err.new; files_before = F.faults files.old; files_now = F.faults files.new }) }

    // What the files hold stays, no count of faults falls, and what surely works counts none.
    ensures same { F.contents files.new ≡ F.contents files.old }
    ensures kept { NoneFalls (F.faults files.old) (F.faults files.new) }
    ensures sound { StaysSound (F.is_sound files.old) (F.is_sound files.new) (F.faults files.old) (F.faults files.new) }
    ensures out_kept { O.faults out.old ≤ O.faults out.new }
    ensures room { IfSome (answer_told (map string_bytes words.now) (F.contents files.old)) (λ answer. RoomServes (O.room out.old) answer (O.faults out.old) (O.faults out.new)) }
    ensures err_kept { E.faults err.old ≤ E.faults err.new }
{
    each_source_is_cut_as_answered();
    match answer(alloc, words, files) {
        Ok(bytes) => match write_all(out, bytes.as_slice()) {
            Ok(()) => 0,
            Err(SinkError::Failed(_)) => Refusal::WriteFault.report(err),
        },
        Err(refusal) => refusal.report(err),
    }
}
