ghost use Rattle.std.specs.Prelude.{◌≡◌, ◌++◌, codes, decimal, flat_map};
ghost use Rattle.std.specs.List.{range_with_len};
ghost use Rattle.history_core.specs.Run.{outcome};
ghost use Rattle.history_core.specs.Run.Ending.{Finished, BadAt};

/// What some scripts mean, by computation from the definitions alone.
pub fn worked_scripts()
    ensures first { outcome (codes "consumer c all\ncommit 10 0/1=aa\nfeed 1\npoll c 1000\nshow c\n")
        ≡ (codes "relay 0 10\nserved 1 41 online 10\nshow c online 10 1\n0/1=aa\n", Finished) }
    ensures empty { outcome (codes "") ≡ (codes "", Finished) }
    ensures nothing_fed { outcome (codes "consumer c all\npoll c 1000\nshow c\n")
        ≡ (codes "empty 0\nshow c online 0 0\n", Finished) }
    ensures same_scn { outcome (codes "commit 10 0/1=aa\nfeed 1\ncommit 10 0/2=bb\n")
        ≡ (codes "relay 0 10\n", BadAt 3) }
    ensures above_last_scn { outcome (codes "commit 9223372036854775807 0/1=aa\nfeed 1\ncommit 9223372036854775807 0/1=bb\n")
        ≡ (codes "relay 0 9223372036854775807\n", BadAt 3) }
    ensures scn_too_great { outcome (codes "commit 9223372036854775808 0/1=aa\n")
        ≡ (codes "", BadAt 1) }
    ensures deleted_and_put_again { outcome (codes "consumer c all\ncommit 10 0/1=aa 0/1- 0/1=bb\nfeed 1\npoll c 1000\nshow c\n")
        ≡ (codes "relay 0 10\nserved 1 88 online 10\nshow c online 10 1\n0/1=bb\n", Finished) }
    ensures last_line_without_lf { outcome (codes "consumer c all\ncommit 10 0/1=aa\nfeed 1\npoll c 40\npoll c 41")
        ≡ (codes "relay 0 10\nsmall 41\nserved 1 41 online 10\n", Finished) }
    ensures carriage_return { outcome (codes "consumer c all\nshow c\nshow c\r\n")
        ≡ (codes "show c online 0 0\n", BadAt 3) }
{}

/// What some scripts of a relay with little room mean, by computation from the definitions alone.
pub fn worked_scripts_of_a_relay()
    ensures floor { outcome (codes "relay 1048576 2\ncommit 10 0/1=aa\ncommit 20 0/2=bb\ncommit 30 0/3=cc\nfeed 3\n")
        ≡ (codes "relay 10 30\n", Finished) }
    ensures behind { outcome (codes "relay 1048576 2\nconsumer c all\ncommit 10 0/1=aa\ncommit 20 0/2=bb\ncommit 30 0/3=cc\nfeed 3\npoll c 1000\npoll c 1000\npoll c 1000\n")
        ≡ (codes "relay 10 30\nnotfound 10\nbehind 0\nnotfound 10\n", Finished) }
    ensures not_the_first { outcome (codes "commit 10 0/1=aa\nrelay 1048576 2\n")
        ≡ (codes "", BadAt 2) }
    ensures behind_blank_lines { outcome (codes "# x\n\nrelay 1048576 2\nfeed 1\n")
        ≡ (codes "relay 0 0\n", Finished) }
    ensures too_little_room { outcome (codes "relay 1048575 2\n")
        ≡ (codes "", BadAt 1) }
{}

/// What some scripts of streams and filters mean, by computation from the definitions alone.
pub fn worked_scripts_of_streams()
    ensures from_each_place { outcome (codes "relay 1048576 2\ncommit 10 0/1=aa\ncommit 20 0/2=bb\ncommit 30 0/3=cc\nfeed 3\nstream 9 all 1000\nstream 10 all 1000\nstream 15 all 1000\nstream 30 all 1000\nstream 99 all 1000\n")
        ≡ (codes "relay 10 30\nnotfound 10\nserved 2 82 last 30\nserved 2 82 last 30\nempty 30\nempty 30\n", Finished) }
    ensures too_small { outcome (codes "consumer c all\ncommit 10 0/1=aa\nfeed 1\nstream 0 all 40\npoll c 40\nstream 0 all 41\n")
        ≡ (codes "relay 0 10\nsmall 41\nsmall 41\nserved 1 41 last 10\n", Finished) }
    ensures filtered { outcome (codes "consumer c 0%2:1\ncommit 10 0/2=aa 0/4=bb\nfeed 1\npoll c 17\nshow c\n")
        ≡ (codes "relay 0 10\nserved 1 17 online 10\nshow c online 10 0\n", Finished) }
{}

/// What a script means of which one reply can't have all windows, by computation from the definitions alone.
pub fn worked_script_of_many_windows()
    ensures { outcome (codes "consumer c all\n" ++ flat_map (λ scn. codes "commit " ++ decimal scn ++ codes " 0/1=aa\n") (range_with_len 1 33) ++ codes "feed 33\npoll c 16777216\npoll c 16777216\n")
        ≡ (codes "relay 0 33\nserved 32 1312 online 32\nserved 1 41 online 33\n", Finished) }
{}

/// What some scripts of stops and crashes mean, by computation from the definitions alone.
pub fn worked_scripts_of_stops()
    ensures stops { outcome (codes "consumer c all\ncommit 10 0/1=aa\nfeed 1\nstop c before\npoll c 1000\nshow c\nstop c after\npoll c 1000\nshow c\ncrash c\npoll c 1000\n")
        ≡ (codes "relay 0 10\nstopped before\nshow c online 0 0\nstopped after\nshow c online 10 1\n0/1=aa\nempty 10\n", Finished) }
    ensures wish { outcome (codes "relay 1048576 2\nconsumer c all\ncommit 10 0/1=aa\ncommit 20 0/2=bb\ncommit 30 0/3=cc\nfeed 3\npoll c 1000\ncrash c\npoll c 1000\npoll c 1000\n")
        ≡ (codes "relay 10 30\nnotfound 10\nnotfound 10\nbehind 0\n", Finished) }
    ensures unknown { outcome (codes "consumer c all\nstop d after\n") ≡ (codes "", BadAt 2) }
    ensures no_time { outcome (codes "consumer c all\nstop c\n") ≡ (codes "", BadAt 2) }
{}

/// What some scripts of a bootstrap mean, by computation from the definitions alone.
pub fn worked_scripts_of_a_bootstrap()
    ensures moves { outcome (codes "commit 10 0/1=aa\ncommit 20 0/1=bb\nfeed 2\nlog 2\napply 1\nrestart boot\ntrim 15\ntrim 99\napply 5\n")
        ≡ (codes "relay 0 20\nboot 0 0 20\nboot 0 10 20\nboot 0 10 20\nboot 10 10 20\nboot 10 10 20\nboot 10 20 20\n", Finished) }
    ensures gap { outcome (codes "relay 1048576 1\nconsumer c all\ncommit 50 0/1=aa\nfeed 1\nlog 1\npoll c 1000\ncommit 60 0/1=bb\ncommit 70 0/2=cc\nfeed 2\npoll c 1000\npoll c 1000\nlog 1\npoll c 1000\nshow c\n")
        ≡ (codes "relay 0 50\nboot 0 0 50\nserved 1 41 online 50\nrelay 60 70\nnotfound 60\nbehind 50\ngap 60\nnotfound 60\nshow c online 50 1\n0/1=aa\n", Finished) }
    ensures anew { outcome (codes "relay 1048576 1\nconsumer c all\ncommit 10 0/1=aa\nfeed 1\nlog 1\ncommit 20 0/2=bb\nfeed 1\nlog 1\npoll c 1000\npoll c 1000\n")
        ≡ (codes "relay 0 10\nboot 0 0 10\nrelay 10 20\nboot 0 0 20\nnotfound 10\nstart delta 0 20\n", Finished) }
{}

/// What a scan of a table that moves on and its replay mean, by computation from the definitions alone.
pub fn worked_script_of_a_scan()
    ensures { outcome (codes "relay 1048576 2\nconsumer c all\nshow c\ncommit 10 0/1=a1 0/2=a2 0/3=a3\nfeed 1\nlog 1\napply 1\ntrim 10\ncommit 20 0/1=b1\ncommit 30 0/2-\ncommit 40 0/4=a4\nfeed 2\nlog 2\nfeed 1\nlog 1\npoll c 1000\npoll c 1000\npoll c 34\napply 2\npoll c 1000\npoll c 1000\npoll c 1000\nshow c\n")
        ≡ (codes "show c online 0 0\nrelay 0 10\nboot 0 0 10\nboot 0 10 10\nboot 10 10 10\nrelay 10 30\nboot 10 10 30\nrelay 20 40\nboot 10 10 40\nnotfound 20\nstart snapshot 10\nrows 1 34 at 10 more\nboot 10 30 40\nrows 1 34 at 30 scanned\ntarget 40 catchup\nreplay 3 122 online 40\nshow c online 40 3\n0/1=b1\n0/3=a3\n0/4=a4\n", Finished) }
{}

/// What some scripts of a delta mean, by computation from the definitions alone.
pub fn worked_scripts_of_a_delta()
    ensures at_once { outcome (codes "relay 1048576 2\nconsumer c all\nshow c\ncommit 10 0/1=a1 0/2=a2 0/3=a3\nfeed 1\nlog 1\napply 1\ncommit 20 0/1=b1\ncommit 30 0/2-\ncommit 40 0/4=a4\nfeed 2\nlog 2\nfeed 1\nlog 1\npoll c 1000\npoll c 1000\npoll c 57\npoll c 1000\nshow c\n")
        ≡ (codes "show c online 0 0\nrelay 0 10\nboot 0 0 10\nboot 0 10 10\nrelay 10 30\nboot 0 10 30\nrelay 20 40\nboot 0 10 40\nnotfound 20\nstart delta 0 40\nchanges 2 57 more\nchanges 2 58 online 40\nshow c online 40 3\n0/1=b1\n0/3=a3\n0/4=a4\n", Finished) }
    ensures behind_a_crash { outcome (codes "relay 1048576 2\nconsumer c all\nshow c\ncommit 10 0/1=a1 0/2=a2 0/3=a3\nfeed 1\nlog 1\napply 1\ncommit 20 0/1=b1\ncommit 30 0/2-\ncommit 40 0/4=a4\nfeed 2\nlog 2\nfeed 1\nlog 1\npoll c 1000\npoll c 1000\npoll c 57\ncrash c\nshow c\npoll c 1000\n")
        ≡ (codes "show c online 0 0\nrelay 0 10\nboot 0 0 10\nboot 0 10 10\nrelay 10 30\nboot 0 10 30\nrelay 20 40\nboot 0 10 40\nnotfound 20\nstart delta 0 40\nchanges 2 57 more\nshow c delta\nchanges 2 58 online 40\n", Finished) }
{}
