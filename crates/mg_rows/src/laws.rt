// What is true of rows and their bytes.
ghost use Rattle.std.specs.Prelude.{◌≡◌, ◌<◌, ◌+◌, ◌*◌, ℕ, length, slice_set};
ghost use Rattle.mg_model.specs.declared.threads.ThrState.{ThrState};
ghost use Rattle.mg_model.specs.Ranges.{IsCounters, IsObjectRow, IsThreadRow};
ghost use Rattle.mg_model.specs.Abbreviations.{state_number};
ghost use Rattle.mg_model.specs.Spelling.{account_bytes, account_read, globals_bytes, globals_read, object_bytes, object_read, thread_bytes, thread_read};
ghost use Rattle.mg_rows.specs.Laws.{IsAccountRow, IsSpelledInOneWay, live};
ghost use Rattle.mg_model.specs.State.{ThreadRow};
ghost use Rattle.mg_rows.specs.ThreadParts.{with_word};

/// Bytes spell a row exactly when that row is in its ranges and has these bytes.
pub fn rows_are_spelled_in_one_way()
    ensures accounts { IsSpelledInOneWay (λ bytes. live (account_read bytes)) account_bytes IsAccountRow }
    ensures threads { IsSpelledInOneWay (λ bytes. live (thread_read bytes)) thread_bytes IsThreadRow }
    ensures objects { IsSpelledInOneWay (λ bytes. live (object_read bytes)) object_bytes IsObjectRow }
    ensures counters { IsSpelledInOneWay globals_read globals_bytes IsCounters }
{}

/// Another pc, another state or another register of a thread is another word of its block: at byte 24, at byte 32, and from
/// byte 64 on.
pub fn threads_change_by_words()
    ensures pc { (row : ThreadRow) (pc : ℕ) → with_word 24 pc (thread_bytes row) ≡ thread_bytes (record row { pc = pc }) }
    ensures state { (row : ThreadRow) (state : ThrState) → with_word 32 (state_number state) (thread_bytes row) ≡ thread_bytes (record row { state = state }) }
    ensures register { (row : ThreadRow) (k value : ℕ) → length row.regs ≡ 8 → k < 8 → with_word (64 + 8 * k) value (thread_bytes row) ≡ thread_bytes (record row { regs = slice_set row.regs k value }) }
{}
