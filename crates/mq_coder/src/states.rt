use std::marker::Model;

/// The states of an encoder's contexts, with which it goes on later.
#[derive(Clone, Copy, Debug)]
pub struct States {
    pub(crate) by_context: [u8; 19],
}

impl Model for States {
    ghost use Rattle.std.specs.Prelude.{List, map};
    ghost use Rattle.codec_terms.specs.Mq.{State};
    ghost use Rattle.mq_coder.specs.Rows.{state_of, number_of, HasStates};
    ghost use Rattle.mq_coder.specs.Numbers.{states-back};

    ghost Value = { List State };

    ghost view = { λ s. map state_of s.by_context };

    ghost invariant = { λ s. HasStates s.by_context };

    ghost inverse = { λ states. record { by_context = map number_of states } };

    ghost inverse_ok = { λ s h. states-back s };
}
