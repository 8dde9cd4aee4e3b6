use ocr_guid::Code;
use ocr_template::{EDT_PARAM_DEF, EDT_PARAM_UNK, Template, counts};

#[test]
fn counts_of_a_template(_rt: HostRuntime) {
    let template = Template {
        function: 3,
        paramc: 1,
        depc: EDT_PARAM_UNK,
        destroyed: false,
    };
    let (by_default, given) = (
        counts(&template, EDT_PARAM_DEF, 3),
        counts(&template, 1, 32),
    );
    prove!(by_default == Ok((1, 3)));
    prove!(given == Ok((1, 32)));
    let (open, past) = (
        counts(&template, 1, EDT_PARAM_DEF),
        counts(&template, 1, 33),
    );
    prove!(open == Err(Code::Einval));
    prove!(past == Err(Code::Einval));
    let open = counts(&template, EDT_PARAM_DEF, EDT_PARAM_DEF);
    prove!(open == Err(Code::Einval));
    let (more, fewer) = (counts(&template, 2, 3), counts(&template, 0, 3));
    prove!(more == Err(Code::Einval));
    prove!(fewer == Err(Code::Einval));
}

#[test]
fn counts_of_a_template_that_leaves_its_parameters_open(_rt: HostRuntime) {
    let template = Template {
        function: 3,
        paramc: EDT_PARAM_UNK,
        depc: 2,
        destroyed: false,
    };
    let (most, past) = (counts(&template, 16, 2), counts(&template, 17, 2));
    prove!(most == Ok((16, 2)));
    prove!(past == Err(Code::Einval));
    let open = counts(&template, EDT_PARAM_DEF, EDT_PARAM_DEF);
    prove!(open == Err(Code::Einval));
}
