//! Laws of the texts. Each is the contract of an empty function.

ghost use Rattle.std.specs.Prelude.{ℕ, ◌≡◌, ◌≤◌, List, Option, length};
ghost use Rattle.std.specs.List.{All};
ghost use Rattle.csv.specs.Reading.{default_config, records_from};
ghost use Rattle.csv.specs.declared.parser.State.TheVariants as state;
ghost use Rattle.place_names.specs.declared.place.Place.{Place};
ghost use Rattle.plan_schedule.specs.declared.schedule.Schedule.{Schedule};
ghost use Rattle.schedule_texts.specs.declared.clock.Clock.{Clock};
ghost use Rattle.schedule_texts.specs.Labels.{IsInert, xml_text};
ghost use Rattle.schedule_texts.specs.Spreadsheets.{IsNoFormula, csv_cells, csv_text};

/// No cell of the CSV begins as a formula of a spreadsheet does, whatever names places have.
pub fn no_cell_is_a_formula()
    ensures { (clock : Option Clock) (places : List Place) (schedule : Option Schedule) →
        All (All IsNoFormula) (csv_cells clock places schedule) }
{}

/// No byte of a name in a picture opens or ends an element or the value of an attribute.
pub fn no_name_opens_an_element()
    ensures { (name : List ℕ) → All IsInert (xml_text name) }
{}

/// What a reader of CSV (the kit's `csv`, as it is set up by itself) finds in the CSV is exactly
/// its cells, record by record, and nothing behind them.
pub fn cells_are_read_back()
    ensures { (clock : Option Clock) (places : List Place) (schedule : Option Schedule) (most : ℕ) →
        length (csv_cells clock places schedule) ≤ most →
        records_from default_config most state.StartRecord (csv_text clock places schedule)
        ≡ csv_cells clock places schedule }
{}
