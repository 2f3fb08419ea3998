// The columns of a trace file, apart from its rows: no row of this crate's interface names a record of `csv`.
ghost use Rattle.std.specs.Prelude.{◌≡◌, ℕ, Bool, List, Option};
ghost use Rattle.csv.specs.Records.{fields_of};
ghost use Rattle.aeth_app.specs.App.{AppData};
ghost use Rattle.aeth_trace.specs.Found.{AreFound};
ghost use Rattle.aeth_trace.specs.Words.{connection_names};

use crate::found::Found;
use crate::row::Row;
use aeth_app::App;
use csv::ByteRecord;

// The columns of a trace file.
pub(crate) trait Columns {
    // A row of such a file.
    type Row: Row;

    // Whether the fields are the header of such a file.
    ghost heads: { List (List ℕ) → Bool };

    // What the fields tell.
    ghost told: { AppData → List (List ℕ) → Option Self.Row };

    // Whether a record is the header.
    fn is_header(fields: &ByteRecord) -> bool
        ensures { result ≡ heads (fields_of fields.now) };

    // The row that a record tells. Connections that are found by their names are kept.
    fn tell(app: &App, found: &mut [Option<Found>], fields: &ByteRecord) -> Option<Self::Row>
        requires { AreFound (connection_names app.now) found.old }
        ensures row { result ≡ told app.now (fields_of fields.now) }
        ensures found { AreFound (connection_names app.now) found.new };
}
