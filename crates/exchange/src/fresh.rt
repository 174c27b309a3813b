// Opening a station, and reading it.
ghost use Rattle.std.specs.Prelude.{◌≡◌};
ghost use Rattle.exchange.specs.Stations.{open_station};

use crate::station::{Row, Station};
use edition::Number;
use refusal::{Refusal, Refused};

// How many houses a station has rows for.
const ROWS: u8 = 16;

impl Station {
    // A house's fresh station: nothing announced, noted or filed.
    pub fn open(house: u8) -> Result<Station, Refused>
        ensures { result ≡ open_station house }
    {
        Refusal::StationHouse.unless(house < ROWS)?;
        let row = Row {
            last: 0,
            slots: [None; 4],
        };
        Ok(Station {
            house,
            announced: 0,
            rows: [row; 16],
        })
    }

    // The house that it belongs to.
    pub fn house(&self) -> u8
        ensures { result ≡ self.now.house }
    {
        self.house
    }

    // How many editions the house has announced.
    pub fn announced(&self) -> Number
        ensures { result ≡ self.now.announced }
    {
        self.announced
    }
}
