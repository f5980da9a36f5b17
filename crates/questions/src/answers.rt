// What an answer carries, as numbers.
ghost use Rattle.questions.specs.Asked.{values_in};

use crate::Value;
use told::Told;
use told::answers::Tells;

impl Tells for Value {
    ghost values = { values_in };

    fn told(self) -> Told {
        match self {
            Value::Number(x) => x.told(),
            Value::Flag(x) => x.told(),
            Value::Level(x) => x.told(),
            Value::Quote(x) => x.told(),
            Value::Ratio(x) => x.told(),
        }
    }
}
