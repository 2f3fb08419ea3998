// What the rows of all trace files have.
ghost use Rattle.std.specs.Prelude.{◌≡◌, ℕ};
ghost use Rattle.aeth_base.specs.declared.ids.Channel.{Channel};

use aeth_base::Channel;

// A row of a trace file.
pub(crate) trait Row: Copy {
    // The number of what the row names.
    ghost names: { Self → ℕ };

    // The row's cycle.
    ghost at: { Self → ℕ };

    // The number of the connection or use case that the row names.
    fn named(&self) -> u32
        ensures { result ≡ names self.now };

    // The cycle of the row.
    fn cycle(&self) -> u32
        ensures { result ≡ at self.now };
}

// A row that is of a channel.
pub(crate) trait OnChannel: Row {
    // The channel of the row.
    ghost on: { Self → Channel };

    // The channel of the row.
    fn channel(&self) -> Channel
        ensures { result ≡ on self.now };
}
