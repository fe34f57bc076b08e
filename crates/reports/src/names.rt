// The names that lines show.
ghost use Rattle.diagram.specs.Text.{path_word, platform_name, train_name};
ghost use Rattle.station.specs.Shown.{record_of};
ghost use Rattle.std.specs.Prelude.{◌≡◌};

use station::Station;

pub(crate) fn train_name(station: &Station, train: usize) -> &[u8]
    ensures { result.now ≡ train_name (record_of station.now) train }
{
    match station.trains.get(train) {
        Some(train) => train.name.bytes(),
        None => &[],
    }
}

pub(crate) fn platform_name(station: &Station, platform: u8) -> &[u8]
    ensures { result.now ≡ platform_name (record_of station.now) platform }
{
    match station.platforms.get(usize::from(platform)) {
        Some(platform) => platform.name.bytes(),
        None => &[],
    }
}

/// The path's name, or `*` for no path.
pub(crate) fn path_word(station: &Station, path: Option<u16>) -> &[u8]
    ensures { result.now ≡ path_word (record_of station.now) path }
{
    match path {
        Some(path) => match station.paths.get(usize::from(path)) {
            Some(path) => path.name.bytes(),
            None => &[],
        },
        None => b"*",
    }
}
