ghost use Rattle.std.specs.Prelude.{◌≤◌, ℕ, List, [], ◌∷◌, ◌++◌};
ghost use Rattle.bus_types.specs.Change.{Test};
ghost use Rattle.bus_types.specs.Window.{Span};
ghost use Rattle.bus_types.specs.Timeline.{Follows, IsTimeline, end_of};
ghost use Rattle.bus_types.specs.Table.{RowList};
ghost use Rattle.checkpoint.specs.declared.mark.Mark.{Mark};
ghost use Rattle.checkpoint.specs.declared.mark.Mark.TheVariants.{Online};
ghost use Rattle.checkpoint.specs.Mark.{IsMark, floor_of};
ghost use Rattle.event_codec.specs.Questions.{Reply};
ghost use Rattle.client_switch.specs.Moves.{Wish, IsWished, question, turn, rows_left};
ghost use Rattle.client_switch.specs.Good.{Good};
ghost use Rattle.bus_wire.specs.True.{IsTrueOf};
ghost use Rattle.client_switch.specs.Lawful.{IsLawfulFor};

/// A law of a client: where its rows are good for its mark and a timeline, its wish is one that comes up at the mark, and the
/// reply to what it asks is true of that timeline, the rows that the reply leaves are good for the mark that it leaves. That
/// mark keeps the rule of its kind, the wish that is left is one that comes up there, and the reply is lawful.
pub fn a_true_reply_keeps_rows_right()
    ensures good { (ws : List Span) (test : Test) (mark : Mark) (wish : Wish) (most : ℕ) (rows : RowList) (reply : Reply) →
        IsTimeline ws → IsMark mark → IsWished mark wish → Good ws test mark rows → IsTrueOf ws test (question mark wish most) reply →
        (let t = turn mark reply in Good ws test t.mark (rows_left rows t)) }
    ensures marked { (ws : List Span) (test : Test) (mark : Mark) (wish : Wish) (most : ℕ) (rows : RowList) (reply : Reply) →
        IsTimeline ws → IsMark mark → IsWished mark wish → Good ws test mark rows → IsTrueOf ws test (question mark wish most) reply →
        (let t = turn mark reply in IsMark t.mark × IsWished t.mark t.wish) }
    ensures lawful { (ws : List Span) (test : Test) (mark : Mark) (wish : Wish) (most : ℕ) (rows : RowList) (reply : Reply) →
        IsTimeline ws → IsMark mark → IsWished mark wish → Good ws test mark rows → IsTrueOf ws test (question mark wish most) reply →
        IsLawfulFor mark reply }
{}

/// A law of a client: the SCN that it stands at, or stood at before it began to move, never falls, whether a lawful reply is
/// true of a timeline or not.
pub fn a_lawful_reply_sets_no_client_back()
    ensures { (mark : Mark) (reply : Reply) → IsMark mark → IsLawfulFor mark reply → floor_of mark ≤ floor_of (turn mark reply).mark }
{}

/// A law of a client: no rows are good for who is online at 0, and rows that are good for a mark and a timeline stay so when
/// the source commits one more window.
pub fn rows_stay_right_while_the_source_commits()
    ensures new { (ws : List Span) (test : Test) → Good ws test (Online 0) [] }
    ensures committed { (ws : List Span) (w : Span) (test : Test) (mark : Mark) (rows : RowList) →
        Follows (end_of ws) w → Good ws test mark rows → Good (ws ++ w ∷ []) test mark rows }
{}
