// The OLT's key exchange on an XG-PON line, for C.
ghost use Rattle.std.specs.Prelude.{◌≡◌};
ghost use Rattle.xgpon.specs.Keys.{received_under, sent_under};
ghost use Rattle.xgpon.specs.Laws.{Laws};
ghost use Rattle.xgpon.specs.Timers.{recommended_starts};
ghost use Rattle.xgpon.specs.Values.{fresh_exchange};
ghost use Rattle.jazmotip.specs.KeyExchange.{step_by_kind};

use jazmotip::key_exchange::InputRecord;
use xgpon::answers::Answer;
use xgpon::keys::ValidKeys;
use xgpon::timers::TimerStarts;
use xgpon::values::KeyExchange;

#[unsafe(no_mangle)]
pub extern "C" fn jazmotip_xgpon_fresh() -> KeyExchange
    ensures value { result ≡ fresh_exchange }
    ensures laws { Laws }
{
    jazmotip::key_exchange::jazmotip_xgpon_fresh()
}

#[unsafe(no_mangle)]
pub extern "C" fn jazmotip_xgpon_step(exchange: KeyExchange, input: InputRecord) -> Answer
    ensures { result ≡ step_by_kind exchange input.kind input.index }
{
    jazmotip::key_exchange::jazmotip_xgpon_step(exchange, input)
}

#[unsafe(no_mangle)]
pub extern "C" fn jazmotip_xgpon_sent_under(exchange: KeyExchange) -> ValidKeys
    ensures { result ≡ sent_under exchange }
{
    jazmotip::key_exchange::jazmotip_xgpon_sent_under(exchange)
}

#[unsafe(no_mangle)]
pub extern "C" fn jazmotip_xgpon_received_under(exchange: KeyExchange) -> ValidKeys
    ensures { result ≡ received_under exchange }
{
    jazmotip::key_exchange::jazmotip_xgpon_received_under(exchange)
}

#[unsafe(no_mangle)]
pub extern "C" fn jazmotip_xgpon_recommended_starts() -> TimerStarts
    ensures { result ≡ recommended_starts }
{
    jazmotip::key_exchange::jazmotip_xgpon_recommended_starts()
}
