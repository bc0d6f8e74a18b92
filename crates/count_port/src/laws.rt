//! Laws and worked cases of batches.

ghost use Rattle.std.specs.Prelude.{◌≡◌, ◌∷◌, ◌-◌, ◌^◌, [], List, None, Some, map, min};
ghost use Rattle.datagram_port.specs.declared.port.Received.TheVariants.{Datagram, Fault, Quiet};
ghost use Rattle.datagram_port.specs.declared.port.Sender.TheVariants.{Client};
ghost use Rattle.gatekeeping.specs.Commits.{commits_of};
ghost use Rattle.gatekeeping.specs.declared.commits.Bucket.TheVariants.{Fifty, Five, Hundred, More, One, Ten, Twenty, Two};
ghost use Rattle.count_port.specs.Batches.{Batch, after_batches, after_datagrams, batches_after, bucket_at, bucket_of, largest_of, no_batches, number_of, settled};

/// Each batch is counted once, whatever the clock told: the commits of all buckets are as many as the batches, and the
/// largest batch is the largest one that came.
pub fn batches_are_counted()
    ensures commits { (batches : List Batch) → commits_of (after_batches batches no_batches).times
        ≡ min (number_of batches) (2 ^ 64 - 1) }
    ensures largest { (batches : List Batch) → (after_batches batches no_batches).largest
        ≡ min (largest_of batches) (2 ^ 64 - 1) }
{}

/// Worked cases. The bucket of a time, in microseconds.
pub fn buckets_are_worked()
    ensures one { map bucket_at (0 ∷ 1000 ∷ []) ≡ One ∷ One ∷ [] }
    ensures two { map bucket_at (1001 ∷ 2000 ∷ []) ≡ Two ∷ Two ∷ [] }
    ensures five { map bucket_at (2001 ∷ 3000 ∷ 5000 ∷ []) ≡ Five ∷ Five ∷ Five ∷ [] }
    ensures ten { map bucket_at (5001 ∷ 6000 ∷ 10000 ∷ []) ≡ Ten ∷ Ten ∷ Ten ∷ [] }
    ensures twenty { map bucket_at (10001 ∷ 11000 ∷ 20000 ∷ []) ≡ Twenty ∷ Twenty ∷ Twenty ∷ [] }
    ensures fifty { map bucket_at (20001 ∷ 21000 ∷ 50000 ∷ []) ≡ Fifty ∷ Fifty ∷ Fifty ∷ [] }
    ensures hundred { map bucket_at (50001 ∷ 51000 ∷ 100000 ∷ []) ≡ Hundred ∷ Hundred ∷ Hundred ∷ [] }
    ensures more { map bucket_at (100001 ∷ 101000 ∷ 18446744073709551615 ∷ []) ≡ More ∷ More ∷ More ∷ [] }
    ensures between { bucket_of (Some 7000000) (Some 7001500) ≡ Two }
    ensures clock_back { bucket_of (Some 7000000) (Some 6000000) ≡ One }
    ensures no_start { bucket_of None (Some 7000000) ≡ More }
    ensures no_end { bucket_of (Some 7000000) None ≡ More }
{}

/// Worked cases. What is counted after receives and commits.
pub fn batches_are_worked()
    ensures datagram { batches_after (Some 5) (Datagram (Client 7) 20) no_batches
        ≡ record no_batches { size = 1; moment = Some 5 } }
    ensures quiet { batches_after (Some 5) Quiet no_batches ≡ no_batches }
    ensures fault { batches_after (Some 5) Fault (record no_batches { size = 1; moment = Some 4 })
        ≡ record no_batches { size = 1; moment = Some 4 } }
    ensures last_moment { after_datagrams (Some 5 ∷ Some 9 ∷ []) no_batches
        ≡ record no_batches { size = 2; moment = Some 9 } }
    ensures no_moment { after_datagrams (Some 5 ∷ None ∷ []) no_batches
        ≡ record no_batches { size = 2; moment = None } }
    ensures no_batch { settled (Some 5) no_batches ≡ no_batches }
    // a batch of two, whose commit took 3 ms, and one of one datagram, whose commit took 1 ms
    ensures two { after_batches (record { came = Some 5 ∷ Some 9 ∷ []; done = Some 3009 }
        ∷ record { came = []; done = Some 4000 } ∷ record { came = Some 5000 ∷ []; done = Some 6000 } ∷ []) no_batches
        ≡ record no_batches { largest = 2; times = record no_batches.times { one = 1; five = 1 } } }
    ensures number { number_of (record { came = Some 5 ∷ Some 9 ∷ []; done = Some 3009 }
        ∷ record { came = []; done = Some 4000 } ∷ record { came = Some 5000 ∷ []; done = Some 6000 } ∷ []) ≡ 2 }
    ensures largest { largest_of (record { came = Some 5 ∷ []; done = None }
        ∷ record { came = Some 5 ∷ Some 9 ∷ []; done = None } ∷ record { came = []; done = None } ∷ []) ≡ 2 }
{}
