// What holds of frame counters: how the counter of one key goes on from set to set.
ghost use Rattle.link_key_counters.specs.history.Kept.{KeptLaws};

// A key's counter is one higher after a sending with it, and else as it was, while the key stays in the set or in one that replaces it.
pub fn kept_counters_law()
    ensures { KeptLaws }
{}
