ghost use Rattle.std.specs.Prelude.{◌≡◌, [], ◌∷◌, codes, Some, None};
ghost use Rattle.bus_stores.specs.declared.keeper.Stop.TheVariants.{Before, After};
ghost use Rattle.partition_filter.specs.Selection.{All};
ghost use Rattle.history_core.specs.Script.{start};
ghost use Rattle.history_core.specs.Steps.{relay_step, consumer_step, commit_step, feed_step, log_step, apply_step, trim_step, restart_step, stop_step, poll_step, show_step, crash_step, gen_step, sum_step};
ghost use Rattle.history_core.specs.Worked.{printed, put};

/// What some lines do, by computation from the definitions alone.
pub fn worked_steps()
    ensures stops { printed start ((λ s. consumer_step s (codes "c") All) ∷ (λ s. commit_step s 10 (put 1 ∷ [])) ∷ (λ s. feed_step s 1)
        ∷ (λ s. stop_step s (codes "c") Before) ∷ (λ s. poll_step s (codes "c") 1000) ∷ (λ s. show_step s (codes "c"))
        ∷ (λ s. stop_step s (codes "c") After) ∷ (λ s. poll_step s (codes "c") 1000) ∷ (λ s. show_step s (codes "c"))
        ∷ (λ s. crash_step s (codes "c")) ∷ (λ s. poll_step s (codes "c") 1000) ∷ [])
        ≡ Some (codes "relay 0 10\nstopped before\nshow c online 0 0\nstopped after\nshow c online 10 1\n0/1=aa\nempty 10\n") }
    ensures once { printed start ((λ s. consumer_step s (codes "c") All) ∷ (λ s. stop_step s (codes "c") Before) ∷ (λ s. poll_step s (codes "c") 1000)
        ∷ (λ s. commit_step s 10 (put 1 ∷ [])) ∷ (λ s. feed_step s 1) ∷ (λ s. poll_step s (codes "c") 1000)
        ∷ (λ s. poll_step s (codes "c") 1000) ∷ (λ s. poll_step s (codes "c") 1000) ∷ [])
        ≡ Some (codes "empty 0\nrelay 0 10\nstopped before\nserved 1 41 online 10\nempty 10\n") }
    ensures evicted { printed start ((λ s. relay_step s 1048576 2) ∷ (λ s. consumer_step s (codes "c") All) ∷ (λ s. commit_step s 10 (put 1 ∷ []))
        ∷ (λ s. commit_step s 20 (put 2 ∷ [])) ∷ (λ s. commit_step s 30 (put 3 ∷ [])) ∷ (λ s. feed_step s 3)
        ∷ (λ s. poll_step s (codes "c") 1000) ∷ (λ s. crash_step s (codes "c")) ∷ (λ s. poll_step s (codes "c") 1000)
        ∷ (λ s. poll_step s (codes "c") 1000) ∷ (λ s. poll_step s (codes "c") 1000) ∷ [])
        ≡ Some (codes "relay 10 30\nnotfound 10\nnotfound 10\nbehind 0\nnotfound 10\n") }
{}

/// What some lines of a bootstrap do, by computation from the definitions alone.
pub fn worked_steps_of_a_bootstrap()
    ensures moves { printed start ((λ s. commit_step s 10 (put 1 ∷ [])) ∷ (λ s. commit_step s 20 (put 1 ∷ [])) ∷ (λ s. feed_step s 2)
        ∷ (λ s. log_step s 2) ∷ (λ s. apply_step s 1) ∷ (λ s. restart_step s) ∷ (λ s. trim_step s 15) ∷ (λ s. trim_step s 99)
        ∷ (λ s. apply_step s 5) ∷ [])
        ≡ Some (codes "relay 0 20\nboot 0 0 20\nboot 0 10 20\nboot 0 10 20\nboot 10 10 20\nboot 10 10 20\nboot 10 20 20\n") }
    ensures gap { printed start ((λ s. relay_step s 1048576 1) ∷ (λ s. consumer_step s (codes "c") All) ∷ (λ s. commit_step s 50 (put 1 ∷ []))
        ∷ (λ s. feed_step s 1) ∷ (λ s. log_step s 1) ∷ (λ s. poll_step s (codes "c") 1000) ∷ (λ s. commit_step s 60 (put 1 ∷ []))
        ∷ (λ s. commit_step s 70 (put 2 ∷ [])) ∷ (λ s. feed_step s 2) ∷ (λ s. poll_step s (codes "c") 1000)
        ∷ (λ s. poll_step s (codes "c") 1000) ∷ (λ s. log_step s 1) ∷ (λ s. poll_step s (codes "c") 1000) ∷ (λ s. show_step s (codes "c")) ∷ [])
        ≡ Some (codes "relay 0 50\nboot 0 0 50\nserved 1 41 online 50\nrelay 60 70\nnotfound 60\nbehind 50\ngap 60\nnotfound 60\nshow c online 50 1\n0/1=aa\n") }
    ensures anew { printed start ((λ s. relay_step s 1048576 1) ∷ (λ s. consumer_step s (codes "c") All) ∷ (λ s. commit_step s 10 (put 1 ∷ []))
        ∷ (λ s. feed_step s 1) ∷ (λ s. log_step s 1) ∷ (λ s. commit_step s 20 (put 2 ∷ [])) ∷ (λ s. feed_step s 1) ∷ (λ s. log_step s 1)
        ∷ (λ s. poll_step s (codes "c") 1000) ∷ (λ s. poll_step s (codes "c") 1000) ∷ [])
        ≡ Some (codes "relay 0 10\nboot 0 0 10\nrelay 10 20\nboot 0 0 20\nnotfound 10\nstart delta 0 20\n") }
{}

/// What some lines that make windows and sum rows do, by computation from the definitions alone.
pub fn worked_steps_of_generated_windows()
    ensures { printed start ((λ s. consumer_step s (codes "c") All) ∷ (λ s. sum_step s (codes "c")) ∷ (λ s. gen_step s 0 1) ∷ (λ s. feed_step s 1)
        ∷ (λ s. poll_step s (codes "c") 1000) ∷ (λ s. show_step s (codes "c")) ∷ (λ s. gen_step s 0 1) ∷ (λ s. feed_step s 1) ∷ [])
        ≡ Some (codes "sum c online 0 0 0 cbf29ce484222325\nrelay 0 1\nserved 1 83 online 1\nshow c online 1 1\n1/1637=0f101112131415161718191a1b1c1d1e1f202122232425262728292a2b2c2d2e2f30313233343536373839\nrelay 0 2\n") }
{}
