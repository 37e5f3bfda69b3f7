//! Constants of the series and of the reductions, each to 106 bits where it is a pair.
use crate::pair::Pair;

/// ln 2 in three parts, the first of 40 bits and the second of 40 more, so that products with a whole number of 11 bits are exact.
pub(crate) const LN_2_FIRST: f64 = 0.6931471805592082;

pub(crate) const LN_2_SECOND: f64 = 7.371002565161996e-13;

pub(crate) const LN_2_THIRD: f64 = 5.8029889835956905e-25;

/// ln 2.
pub(crate) const LN_2: Pair = Pair {
    high: 0.6931471805599453,
    low: 2.3190468138462996e-17,
};

/// 1 / ln 2.
pub(crate) const LOG2_E: Pair = Pair {
    high: 1.4426950408889634,
    low: 2.0355273740931033e-17,
};

/// 1 / ln 10.
pub(crate) const LOG10_E: Pair = Pair {
    high: 0.4342944819032518,
    low: 1.098319650216765e-17,
};

/// pi / 2.
pub(crate) const HALF_PI: Pair = Pair {
    high: 1.5707963267948966,
    low: 6.123233995736766e-17,
};

/// pi.
pub(crate) const PI: Pair = Pair {
    high: 3.141592653589793,
    low: 1.2246467991473532e-16,
};

/// 1 / n!, from n = 28 down to 0.
pub(crate) static FACTORIALS: [Pair; 29] = [
    Pair {
        high: 3.279889237069838e-30,
        low: 1.5117542744029879e-46,
    },
    Pair {
        high: 9.183689863795546e-29,
        low: 1.4303150396787322e-45,
    },
    Pair {
        high: 2.4795962632247976e-27,
        low: -1.2953730964765229e-43,
    },
    Pair {
        high: 6.446950284384474e-26,
        low: -1.9330404233703465e-42,
    },
    Pair {
        high: 1.6117375710961184e-24,
        low: -3.6846573564509766e-41,
    },
    Pair {
        high: 3.868170170630684e-23,
        low: -8.843177655482344e-40,
    },
    Pair {
        high: 8.896791392450574e-22,
        low: -7.911402614872376e-38,
    },
    Pair {
        high: 1.9572941063391263e-20,
        low: -1.3643503830087908e-36,
    },
    Pair {
        high: 4.110317623312165e-19,
        low: 1.4412973378659527e-36,
    },
    Pair {
        high: 8.22063524662433e-18,
        low: 2.2141894119604265e-34,
    },
    Pair {
        high: 1.5619206968586225e-16,
        low: 1.1910679660273754e-32,
    },
    Pair {
        high: 2.8114572543455206e-15,
        low: 1.6508842730861433e-31,
    },
    Pair {
        high: 4.779477332387385e-14,
        low: 4.399205485834081e-31,
    },
    Pair {
        high: 7.647163731819816e-13,
        low: 7.03872877733453e-30,
    },
    Pair {
        high: 1.1470745597729725e-11,
        low: 2.0655512752830745e-28,
    },
    Pair {
        high: 1.6059043836821613e-10,
        low: 1.2585294588752098e-26,
    },
    Pair {
        high: 2.08767569878681e-9,
        low: -1.20734505911326e-25,
    },
    Pair {
        high: 2.505210838544172e-8,
        low: -1.448814070935912e-24,
    },
    Pair {
        high: 2.755731922398589e-7,
        low: 2.3767714622250297e-23,
    },
    Pair {
        high: 2.7557319223985893e-6,
        low: -1.858393274046472e-22,
    },
    Pair {
        high: 2.48015873015873e-5,
        low: 2.1511947866775882e-23,
    },
    Pair {
        high: 0.0001984126984126984,
        low: 1.7209558293420705e-22,
    },
    Pair {
        high: 0.001388888888888889,
        low: -5.300543954373577e-20,
    },
    Pair {
        high: 0.008333333333333333,
        low: 1.1564823173178714e-19,
    },
    Pair {
        high: 0.041666666666666664,
        low: 2.3129646346357427e-18,
    },
    Pair {
        high: 0.16666666666666666,
        low: 9.25185853854297e-18,
    },
    Pair {
        high: 0.5,
        low: 0.0,
    },
    Pair {
        high: 1.0,
        low: 0.0,
    },
    Pair {
        high: 1.0,
        low: 0.0,
    },
];

/// 1 / (2 n + 1), from n = 25 down to 0.
pub(crate) static ODD_NUMBERS: [Pair; 26] = [
    Pair {
        high: 0.0196078431372549,
        low: 2.7211348642773444e-19,
    },
    Pair {
        high: 0.02040816326530612,
        low: 1.6285159162231251e-18,
    },
    Pair {
        high: 0.02127659574468085,
        low: 5.167261417803255e-19,
    },
    Pair {
        high: 0.022222222222222223,
        low: -8.480870326997723e-19,
    },
    Pair {
        high: 0.023255813953488372,
        low: 3.2273925134452225e-19,
    },
    Pair {
        high: 0.024390243902439025,
        low: -8.46206573647223e-19,
    },
    Pair {
        high: 0.02564102564102564,
        low: 8.896017825522087e-19,
    },
    Pair {
        high: 0.02702702702702703,
        low: -1.50030138462859e-18,
    },
    Pair {
        high: 0.02857142857142857,
        low: 8.921435019309293e-19,
    },
    Pair {
        high: 0.030303030303030304,
        low: -8.410780489584519e-19,
    },
    Pair {
        high: 0.03225806451612903,
        low: 8.953411488912552e-19,
    },
    Pair {
        high: 0.034482758620689655,
        low: 4.785444071660157e-19,
    },
    Pair {
        high: 0.037037037037037035,
        low: 2.05596856412066e-18,
    },
    Pair {
        high: 0.04,
        low: -8.326672684688674e-19,
    },
    Pair {
        high: 0.043478260869565216,
        low: 1.206764157201257e-18,
    },
    Pair {
        high: 0.047619047619047616,
        low: 2.64338815386942e-18,
    },
    Pair {
        high: 0.05263157894736842,
        low: 2.921639538487254e-18,
    },
    Pair {
        high: 0.058823529411764705,
        low: 8.163404592832033e-19,
    },
    Pair {
        high: 0.06666666666666667,
        low: 9.251858538542971e-19,
    },
    Pair {
        high: 0.07692307692307693,
        low: -4.270088556250602e-18,
    },
    Pair {
        high: 0.09090909090909091,
        low: -2.523234146875356e-18,
    },
    Pair {
        high: 0.1111111111111111,
        low: 6.1679056923619804e-18,
    },
    Pair {
        high: 0.14285714285714285,
        low: 7.93016446160826e-18,
    },
    Pair {
        high: 0.2,
        low: -1.1102230246251566e-17,
    },
    Pair {
        high: 0.3333333333333333,
        low: 1.850371707708594e-17,
    },
    Pair {
        high: 1.0,
        low: 0.0,
    },
];

/// The first 1,280 bits of 2 / pi behind the point, the lowest first.
pub(crate) static TWO_OVER_PI: [u64; 20] = [
    0xf0cf_bc20_9af4_361d,
    0x5603_3046_fc7b_6bab,
    0x6bfb_5fb1_1f8d_5d08,
    0x3d07_39f7_8a52_92ea,
    0x7527_bac7_ebe5_f17b,
    0x4f46_3f66_9e5f_ea2d,
    0x6d36_7ecf_27cb_09b7,
    0xef2f_118b_5a0a_6d1f,
    0x1ff8_97ff_de05_980f,
    0x9c84_5f8b_bdf9_283b,
    0x3991_d639_8353_39f4,
    0xe99c_7026_b45f_7e41,
    0xe882_35f5_2ebb_4484,
    0xfe1d_eb1c_b129_a73e,
    0x0649_2eea_09d1_921c,
    0xb724_6e3a_424d_d2e0,
    0xfe51_63ab_debb_c561,
    0xdb62_9599_3c43_9041,
    0xfc27_57d1_f534_ddc0,
    0xa2f9_836e_4e44_1529,
];
