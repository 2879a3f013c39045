// What holds of a written model.
ghost use Rattle.models.specs.Replays.{WrittenReplays, ReplayAnswers};

// A replay of a written model finds true what the model makes true.
pub fn written_replays() -> u8
    ensures { WrittenReplays }
{
    0
}

// So does a call of replay on its bytes.
pub fn replay_answers() -> u8
    ensures { ReplayAnswers }
{
    0
}
