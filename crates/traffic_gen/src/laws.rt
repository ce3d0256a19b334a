// Laws on the traffic.
ghost use Rattle.std.specs.Prelude.{◌≡◌, ◌≤◌, ◌^◌, ℕ, None, length};
ghost use Rattle.pst_model.specs.Text.{commands_of, first_bad};
ghost use Rattle.traffic_gen.specs.Lawful.{commands_in};
ghost use Rattle.traffic_gen.specs.Traffic.{traffic_of, traffic_text};

/// The text of 1 to 100,000 arrivals has no bad line, where the text limit is no shorter than it is, and says the
/// commands of the traffic. It is no longer than the limit of a session's text, 2^40 octets. There are this many
/// commands: five requests and two retrievals, the arrivals, a grant behind each fourth, an idle time behind each 64th,
/// and as many grants at the end as there were arrivals.
pub fn traffic_reads_back()
    ensures good { (limit number total : ℕ) → total ≤ 100000
        → length (traffic_text number total) ≤ limit
        → first_bad limit (traffic_text number total) ≡ None }
    ensures commands { (limit number total : ℕ) → total ≤ 100000
        → length (traffic_text number total) ≤ limit
        → commands_of limit (traffic_text number total) ≡ traffic_of number total }
    ensures size { (number total : ℕ) → 1 ≤ total → total ≤ 100000
        → length (traffic_text number total) ≤ 2 ^ 40 }
    ensures count { (number total : ℕ) → 1 ≤ total
        → length (traffic_of number total) ≡ commands_in total }
{}
