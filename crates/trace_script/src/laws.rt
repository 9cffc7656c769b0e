ghost use Rattle.std.specs.Prelude.{◌≡◌, ◌+◌, ◌<◌, ◌≤◌, ◌↔◌, ℕ, true, false, [], ◌∷◌, ◌++◌, length, codes, Some, None};
ghost use Rattle.bus_types.specs.declared.change.Key.TheVariants.{Long};
ghost use Rattle.partition_filter.specs.Selection.Selection.{All, Rules};
ghost use Rattle.partition_filter.specs.declared.rule.Keys.TheVariants.{Every};
ghost use Rattle.trace_script.specs.declared.line.Line.TheVariants.{Blank, Relay, Consumer, Commit, Gen, Feed, Poll, Show, Sum, Crash, Stop, Stream, Log, Apply, Trim, RestartBoot};
ghost use Rattle.event_codec.specs.declared.answer.Answer.TheVariants as answers;
ghost use Rattle.event_codec.specs.declared.reply.Shape.TheVariants as shapes;
ghost use Rattle.trace_script.specs.declared.printing.Stage.TheVariants as stages;
ghost use Rattle.trace_script.specs.Input.{RawLine, is_too_long};
ghost use Rattle.trace_script.specs.Lines.{line_of};
ghost use Rattle.trace_script.specs.Printed.{relay_line, gap_line, boot_line, reply_line};

/// The limits of the numbers of a line, by computation from the grammar alone: at each end the last number that is in it and
/// the first that isn't.
pub fn the_limits_of_lines()
    ensures no_feed { line_of (codes "feed 0") ≡ None }
    ensures least_feed { line_of (codes "feed 1") ≡ Some (Feed 1) }
    ensures most_feed { line_of (codes "feed 1000000") ≡ Some (Feed 1000000) }
    ensures more_feed { line_of (codes "feed 1000001") ≡ None }
    ensures least_gen { line_of (codes "gen 0 1") ≡ Some (Gen 0 1) }
    ensures most_gen { line_of (codes "gen 2147483647 100000") ≡ Some (Gen 2147483647 100000) }
    ensures no_gen { line_of (codes "gen 0 0") ≡ None }
    ensures greater_seed { line_of (codes "gen 2147483648 1") ≡ None }
    ensures more_gen { line_of (codes "gen 0 100001") ≡ None }
    ensures no_log { line_of (codes "log 0") ≡ None }
    ensures least_log { line_of (codes "log 1") ≡ Some (Log 1) }
    ensures most_log { line_of (codes "log 1000000") ≡ Some (Log 1000000) }
    ensures more_log { line_of (codes "log 1000001") ≡ None }
    ensures no_apply { line_of (codes "apply 0") ≡ None }
    ensures least_apply { line_of (codes "apply 1") ≡ Some (Apply 1) }
    ensures most_apply { line_of (codes "apply 1000000") ≡ Some (Apply 1000000) }
    ensures more_apply { line_of (codes "apply 1000001") ≡ None }
    ensures least_trim { line_of (codes "trim 0") ≡ Some (Trim 0) }
    ensures most_trim { line_of (codes "trim 9223372036854775807") ≡ Some (Trim 9223372036854775807) }
    ensures more_trim { line_of (codes "trim 9223372036854775808") ≡ None }
    ensures no_reply { line_of (codes "poll c 0") ≡ None }
    ensures least_reply { line_of (codes "poll c 1") ≡ Some (Poll (codes "c") 1) }
    ensures most_reply { line_of (codes "poll c 16777216") ≡ Some (Poll (codes "c") 16777216) }
    ensures more_reply { line_of (codes "poll c 16777217") ≡ None }
    ensures no_stream { line_of (codes "stream 0 all 0") ≡ None }
    ensures least_stream { line_of (codes "stream 0 all 1") ≡ Some (Stream 0 All 1) }
    ensures most_stream { line_of (codes "stream 9223372036854775807 all 16777216") ≡ Some (Stream 9223372036854775807 All 16777216) }
    ensures more_stream { line_of (codes "stream 0 all 16777217") ≡ None }
    ensures late_stream { line_of (codes "stream 9223372036854775808 all 1") ≡ None }
    ensures less_room { line_of (codes "relay 1048575 1") ≡ None }
    ensures least_room { line_of (codes "relay 1048576 1") ≡ Some (Relay 1048576 1) }
    ensures most_room { line_of (codes "relay 268435456 65536") ≡ Some (Relay 268435456 65536) }
    ensures more_room { line_of (codes "relay 268435457 1") ≡ None }
    ensures no_windows { line_of (codes "relay 1048576 0") ≡ None }
    ensures more_windows { line_of (codes "relay 1048576 65537") ≡ None }
{}

/// The limits of an input: a line is within them exactly where fewer than 1,000,000 lines came before it, its text has at most
/// 4,194,304 bytes, and the input up to its end at most 16,777,216.
pub fn the_limits_of_inputs()
    ensures { (count used : ℕ) (line : RawLine) → (is_too_long count used line ≡ false)
        ↔ ((count < 1000000) × (length line.text ≤ 4194304) × (used + line.size ≤ 16777216)) }
{}

/// What some texts are read as, by computation from the grammar alone.
pub fn worked_lines()
    ensures empty { line_of (codes "") ≡ Some Blank }
    ensures comment { line_of (codes "# a  comment") ≡ Some Blank }
    ensures consumer { line_of (codes "consumer c_1 0*") ≡ Some (Consumer (codes "c_1") (Rules ((record { source = 0; keys = Every }) ∷ []))) }
    ensures commit { line_of (codes "commit 9 1/2=0aff 0/3- 4/5=") ≡ Some (Commit 9 ((record { source = 1; key = Long 2; put = (Some (10 ∷ 255 ∷ [])) }) ∷ (record { source = 0; key = Long 3; put = None }) ∷ (record { source = 4; key = Long 5; put = (Some []) }) ∷ [])) }
    ensures show { line_of (codes "show c") ≡ Some (Show (codes "c")) }
    ensures sum { line_of (codes "sum c") ≡ Some (Sum (codes "c")) }
    ensures crash { line_of (codes "crash c") ≡ Some (Crash (codes "c")) }
    ensures stop_before { line_of (codes "stop c before") ≡ Some (Stop (codes "c") false) }
    ensures stop_after { line_of (codes "stop c after") ≡ Some (Stop (codes "c") true) }
    ensures restart { line_of (codes "restart boot") ≡ Some RestartBoot }
    ensures carriage_return { line_of (codes "show c" ++ 13 ∷ []) ≡ None }
    ensures commented_return { line_of (codes "#" ++ 13 ∷ []) ≡ None }
    ensures space_first { line_of (codes " show c") ≡ None }
    ensures space_last { line_of (codes "show c ") ≡ None }
    ensures two_spaces { line_of (codes "show  c") ≡ None }
    ensures space_alone { line_of (codes " ") ≡ None }
    ensures no_name { line_of (codes "show") ≡ None }
    ensures more_words { line_of (codes "show c d") ≡ None }
    ensures longest_name { line_of (codes "show abcdefghijklmno_") ≡ Some (Show (codes "abcdefghijklmno_")) }
    ensures longer_name { line_of (codes "show abcdefghijklmnop_") ≡ None }
    ensures upper_case_name { line_of (codes "show C") ≡ None }
    ensures upper_case_word { line_of (codes "Show c") ≡ None }
    ensures other_word { line_of (codes "look c") ≡ None }
    ensures no_change { line_of (codes "commit 1") ≡ None }
    ensures leading_zero { line_of (codes "commit 01 1/1-") ≡ None }
    ensures signed { line_of (codes "feed +1") ≡ None }
    ensures odd_digits { line_of (codes "commit 1 1/1=0") ≡ None }
    ensures upper_case_digits { line_of (codes "commit 1 1/1=0A") ≡ None }
    ensures no_key { line_of (codes "commit 1 1/-") ≡ None }
    ensures later_source { line_of (codes "commit 1 65536/1-") ≡ None }
    ensures greater_key { line_of (codes "commit 1 1/18446744073709551616-") ≡ None }
    ensures other_filter { line_of (codes "consumer c some") ≡ None }
    ensures other_stop { line_of (codes "stop c later") ≡ None }
    ensures other_restart { line_of (codes "restart relay") ≡ None }
{}

/// The lines of some replies, by computation from the definitions alone.
pub fn worked_replies()
    ensures served { reply_line (stages.Online 0) (shapes.Windows 1 10) 41 ≡ codes "served 1 41 online 10\n" }
    ensures not_found { reply_line (stages.Online 10) (shapes.Only (answers.NotFound 20)) 9 ≡ codes "notfound 20\n" }
    ensures empty { reply_line (stages.Online 0) (shapes.Only (answers.Empty 0)) 9 ≡ codes "empty 0\n" }
    ensures small { reply_line (stages.Online 0) (shapes.Only (answers.TooSmall 41)) 9 ≡ codes "small 41\n" }
    ensures behind { reply_line (stages.Online 60) (shapes.Only (answers.Behind 50)) 9 ≡ codes "behind 50\n" }
    ensures gone { reply_line (stages.Scanned 10) (shapes.Only (answers.LogGone 40)) 9 ≡ codes "gone 40\n" }
    ensures start_delta { reply_line (stages.Online 0) (shapes.Only (answers.StartDelta 40)) 9 ≡ codes "start delta 0 40\n" }
    ensures start_snapshot { reply_line (stages.Online 0) (shapes.Only (answers.StartSnapshot 10)) 9 ≡ codes "start snapshot 10\n" }
    ensures changes { reply_line (stages.Delta 40) (shapes.Changes 2 true) 57 ≡ codes "changes 2 57 more\n" }
    ensures last_changes { reply_line (stages.Delta 40) (shapes.Changes 2 false) 58 ≡ codes "changes 2 58 online 40\n" }
    ensures rows { reply_line stages.Snapshot (shapes.Rows 1 10 true) 34 ≡ codes "rows 1 34 at 10 more\n" }
    ensures last_rows { reply_line stages.Snapshot (shapes.Rows 1 30 false) 34 ≡ codes "rows 1 34 at 30 scanned\n" }
    ensures catchup { reply_line (stages.Scanned 10) (shapes.Only (answers.Target 40)) 9 ≡ codes "target 40 catchup\n" }
    ensures online { reply_line (stages.Scanned 40) (shapes.Only (answers.Target 40)) 9 ≡ codes "target 40 online\n" }
    ensures replay { reply_line (stages.Catchup 40) (shapes.Windows 1 20) 41 ≡ codes "replay 1 41 at 20\n" }
    ensures replayed { reply_line (stages.Catchup 40) (shapes.Windows 3 40) 122 ≡ codes "replay 3 122 online 40\n" }
    ensures relay { relay_line 10 30 ≡ codes "relay 10 30\n" }
    ensures boot { boot_line 0 10 40 ≡ codes "boot 0 10 40\n" }
    ensures gap { gap_line 60 ≡ codes "gap 60\n" }
{}
