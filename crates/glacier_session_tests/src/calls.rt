// Calls of a station, of which only this is told: what is open behind them.
ghost use Rattle.std.specs.Prelude.{◌≡◌, false, true};

use glacier_disk::Station;

/// Opens the folder.
pub fn opens<S: Station>(station: &mut S) -> bool
    requires { (S.told station.old).opened ≡ false }
    ensures open { result ≡ true → (S.told station.new).opened ≡ true }
    ensures listening { (S.told station.new).listener.listening ≡
        (S.told station.old).listener.listening }
    ensures connected { (S.told station.new).connected ≡ (S.told station.old).connected }
{
    station.open("here").is_ok()
}

/// Begins to listen.
pub fn listens<S: Station>(station: &mut S) -> bool
    requires { (S.told station.old).listener.listening ≡ false }
    ensures open { (S.told station.new).opened ≡ (S.told station.old).opened }
    ensures listening { result ≡ true → (S.told station.new).listener.listening ≡ true }
    ensures connected { (S.told station.new).connected ≡ (S.told station.old).connected }
{
    station.listen("there").is_ok()
}

/// Whether a connection comes.
pub fn accepts<S: Station>(station: &mut S) -> bool
    requires listening { (S.told station.old).listener.listening ≡ true }
    requires free { (S.told station.old).connected ≡ false }
    ensures open { (S.told station.new).opened ≡ (S.told station.old).opened }
    ensures listening { (S.told station.new).listener.listening ≡ true }
    ensures connected { result ≡ true → (S.told station.new).connected ≡ true }
{
    match station.accept() {
        Ok(is_accepted) => is_accepted,
        Err(_) => false,
    }
}
