//! What verdicts say.

ghost use Rattle.vx_check.specs.Laws.{EndedText, OneVerdict, RunJudged, TranscriptJudged};

/// No transcript has two verdicts: so each comes exactly where the definition gives it.
pub fn no_transcript_has_two_verdicts()
    ensures { OneVerdict }
{}

/// A text that is found complete, hung or at its limit is the transcript of a run, byte for byte.
pub fn an_ended_text_is_the_transcript()
    ensures { EndedText }
{}

/// The transcript of a run that has ended is read as its journal, if numbers, names and bytes are such as the program's types
/// hold; and that is judged complete, hung or at its limit, as the run has ended.
pub fn the_transcript_of_a_run_is_judged_by_its_end()
    ensures journal { RunJudged }
    ensures transcript { TranscriptJudged }
{}
